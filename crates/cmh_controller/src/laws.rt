//! What may be refused when memory runs out.

ghost use Rattle.std.specs.Prelude.{ℕ};
ghost use Rattle.cmh_frames.specs.Topology.{Topology};
ghost use Rattle.cmh_frames.specs.Rules.{Accepts};
ghost use Rattle.cmh_frames.specs.State.{State};
ghost use Rattle.cmh_frames.specs.declared.event.Event.{Event};
ghost use Rattle.cmh_controller.specs.Refusals.{Refuses};
ghost use Rattle.cmh_controller.specs.declared.refusal.Refusal.TheVariants.{Memory};

/// Memory may be wanted for each event that the rules accept, and for no other: an event that they refuse is refused for
/// its own reason, whatever memory there is.
pub fn memory_law()
    ensures accepted { (t : Topology) (site : ℕ) (state : State) (event : Event) → Accepts t site state event
        → Refuses t site state event Memory }
    ensures alone { (t : Topology) (site : ℕ) (state : State) (event : Event) → Refuses t site state event Memory
        → Accepts t site state event }
{}
