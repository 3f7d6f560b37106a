//! The second half of a step, and the way back from the first. Nothing here takes memory.

ghost use Rattle.std.specs.Prelude.{ℕ, List, Option, ◌≡◌, true};
ghost use Rattle.cmh_model3.specs.Rules.{targets_away};
ghost use Rattle.cmh_controller3.specs.Controller as spec;
ghost use Rattle.cmh_controller3.specs.Controller.{home_of, state_of};
ghost use Rattle.cmh_controller3.specs.Inner.Leading.{Leads};
ghost use Rattle.cmh_controller3.specs.Steps.{CanTake, IsBackAt};
ghost use Rattle.cmh_controller3.specs.Inner.Between.{StandsBetween};
ghost use Rattle.cmh_controller3.specs.declared.outcome.Declaration as outcome;

use crate::changes::{forget, later, undeclare};
use crate::controller::Controller;
use crate::outcome::Declaration;
use crate::prepared::Before;
use cmh_model3::{Event, Frame, ProcId, SiteId, Stamp};

impl Controller {
    /// A process grants what it holds.
    pub(crate) fn reply(&mut self, holder: ProcId, asker: ProcId)
        requires { CanTake self.old (Event.Reply holder asker) }
        ensures { Leads self.old (Event.Reply holder asker) self.new }
    {
        if self.topology.home_of_known(asker) == self.site {
            self.waits.end(asker, holder);
            let blocked = self.waits.is_blocked(asker);
            forget(&mut self.marks, &mut self.declared, asker, blocked);
        } else {
            self.owed.remove(holder, asker);
        }
    }

    /// A process gives up some of its waits, and is leaving those of other sites already.
    pub(crate) fn withdraw(&mut self, asker: ProcId, targets: &[ProcId])
        requires accepted { CanTake self.old (Event.Withdraw asker targets.now) }
        requires left { (k : ℕ) → targets_away (home_of self.old) self.old.site asker targets.now asker k ≡ true
            → (state_of self.old).leaving asker k ≡ true }
        ensures { Leads self.old (Event.Withdraw asker targets.now) self.new }
    {
        self.waits.end_all(asker, targets);
        let blocked = self.waits.is_blocked(asker);
        forget(&mut self.marks, &mut self.declared, asker, blocked);
    }

    /// A reply came from another site: a wait ends, or a process has left another.
    pub(crate) fn got_reply(&mut self, from: SiteId, clock: Stamp, holder: ProcId, asker: ProcId)
        requires { CanTake self.old (Event.Got from clock (Frame.Reply holder asker)) }
        ensures { Leads self.old (Event.Got from clock (Frame.Reply holder asker)) self.new }
    {
        self.clock = later(self.clock, clock);
        if self.waits.waits_for(asker, holder) {
            self.waits.end(asker, holder);
            let blocked = self.waits.is_blocked(asker);
            forget(&mut self.marks, &mut self.declared, asker, blocked);
        } else {
            self.leaving.remove(asker, holder);
        }
    }

    /// A withdrawal came from another site: nothing is owed any longer.
    pub(crate) fn got_withdraw(&mut self, from: SiteId, clock: Stamp, asker: ProcId, holder: ProcId)
        requires { CanTake self.old (Event.Got from clock (Frame.Withdraw asker holder)) }
        ensures { Leads self.old (Event.Got from clock (Frame.Withdraw asker holder)) self.new }
    {
        self.clock = later(self.clock, clock);
        self.owed.remove(holder, asker);
    }

    /// The clock is set forward.
    pub(crate) fn turn(&mut self, clock: Stamp)
        requires { CanTake self.old (Event.Turn clock) }
        ensures { Leads self.old (Event.Turn clock) self.new }
    {
        self.clock = clock;
    }

    // ---- the way back from the first half

    /// Goes back from between the halves of the step of an event, with what stood where the first half wrote, and whom it
    /// declared.
    pub(crate) fn give_up(&mut self, event: &Event, before: Before, declared: Option<Declaration>)
        requires { (old : spec.Controller) × StandsBetween old event.now before declared self.old }
        ensures { (old : spec.Controller) → StandsBetween old event.now before declared self.old
            → IsBackAt old self.new }
    {
        match event {
            Event::Ask { asker, targets } => self.forget_ask(*asker, targets.as_slice(), &before),
            Event::Reply { .. } => {}
            Event::Withdraw { asker, .. } => self.forget_withdraw(*asker, before),
            Event::Got { frame, .. } => self.forget_frame(frame, &before, declared),
            Event::Turn { .. } => {}
        }
    }

    /// Takes back an ask that was prepared.
    fn forget_ask(&mut self, asker: ProcId, targets: &[ProcId], before: &Before)
        requires { (old : spec.Controller) × (d : Option outcome.Declaration)
            × StandsBetween old (Event.Ask asker targets.now) before.now d self.old }
        ensures { (old : spec.Controller) (d : Option outcome.Declaration)
            → StandsBetween old (Event.Ask asker targets.now) before.now d self.old → IsBackAt old self.new }
    {
        self.waits.end_all(asker, targets);
        self.clock = before.clock;
        self.stamps[asker.get() as usize] = before.stamp;
        self.declared[asker.get() as usize] = before.declared;
    }

    /// Takes back what came of a frame.
    fn forget_frame(&mut self, frame: &Frame, before: &Before, declared: Option<Declaration>)
        requires { (old : spec.Controller) × (a n : ℕ)
            × StandsBetween old (Event.Got a n frame.now) before.now declared self.old }
        ensures { (old : spec.Controller) (a n : ℕ)
            → StandsBetween old (Event.Got a n frame.now) before.now declared self.old → IsBackAt old self.new }
    {
        match frame {
            Frame::Request { asker, holder } => self.forget_request(*asker, *holder, before),
            Frame::Reply { .. } => {}
            Frame::Withdraw { .. } => {}
            Frame::Probe { origin, to, .. } => self.forget_probe(*origin, *to, before, declared),
        }
    }

    /// Takes back that a process is leaving those that it gives up.
    fn forget_withdraw(&mut self, asker: ProcId, before: Before)
        requires { (old : spec.Controller) × (targets : List ℕ) × (d : Option outcome.Declaration)
            × StandsBetween old (Event.Withdraw asker targets) before d self.old }
        ensures { (old : spec.Controller) (targets : List ℕ) (d : Option outcome.Declaration)
            → StandsBetween old (Event.Withdraw asker targets) before d self.old → IsBackAt old self.new }
    {
        self.leaving.put_row(asker, before.leaving);
    }

    /// Takes back that a process owes a reply to one of another site.
    fn forget_request(&mut self, asker: ProcId, holder: ProcId, before: &Before)
        requires { (old : spec.Controller) × (a n : ℕ) × (d : Option outcome.Declaration)
            × StandsBetween old (Event.Got a n (Frame.Request asker holder)) before.now d self.old }
        ensures { (old : spec.Controller) (a n : ℕ) (d : Option outcome.Declaration)
            → StandsBetween old (Event.Got a n (Frame.Request asker holder)) before.now d self.old
            → IsBackAt old self.new }
    {
        self.owed.remove(holder, asker);
        self.clock = before.clock;
    }

    /// Takes back the mark that a probe set, and what it declared.
    fn forget_probe(
        &mut self,
        origin: ProcId,
        at: ProcId,
        before: &Before,
        declared: Option<Declaration>,
    )
        requires { (old : spec.Controller) × (a n m j : ℕ)
            × StandsBetween old (Event.Got a n (Frame.Probe origin m j at)) before.now declared self.old }
        ensures { (old : spec.Controller) (a n m j : ℕ)
            → StandsBetween old (Event.Got a n (Frame.Probe origin m j at)) before.now declared self.old
            → IsBackAt old self.new }
    {
        self.marks.put_back(at, origin, before.mark);
        undeclare(&mut self.declared, declared);
        self.clock = before.clock;
    }
}
