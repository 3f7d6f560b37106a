//! Events of clients that are given to the site together.

ghost use Rattle.std.specs.Prelude.{◌≡◌, ◌≤◌, ◌∷◌, ◌++◌, [], length, true, false, vec_len, IfOk, OnErr, OnOk};
ghost use Rattle.std.specs.List.{AllByRecursion, list_any};
ghost use Rattle.cmh_node3.specs.Steps.{IsOwn};
ghost use Rattle.cmh_clients3.specs.Events.{is_got};

use cmh_model3::Event;
use std::alloc::{AllocError, Global};
use std::marker::Model;

/// How many events one append takes, at most.
pub const MOST_TOGETHER: usize = 64;

/// Events of the site's own processes, each with the place of the client that waits for its answer.
#[derive(Drop)]
pub struct Batch {
    events: Vec<Event>,
    places: Vec<usize>,
    ghost own: { list_any is_got events.items ≡ false },
    ghost both: { vec_len events ≡ vec_len places },
    ghost few: { vec_len events ≤ 64 },
}

impl Model for Batch {
    ghost use Rattle.cmh_clients3.specs.Batches as spec;

    ghost Value = { spec.Batch };

    ghost view = { λ b. record { events = b.events.items; places = b.places.items } };
}

impl Batch {
    /// No event.
    pub fn new(alloc: Global) -> Result<Batch, AllocError>
        ensures { IfOk result (λ batch. batch.events ≡ []) }
    {
        Ok(Batch {
            events: Vec::with_capacity(alloc, MOST_TOGETHER)?,
            places: Vec::with_capacity(alloc, MOST_TOGETHER)?,
        })
    }

    pub fn is_empty(&self) -> bool {
        self.events.is_empty()
    }

    /// Whether no more events go together.
    pub fn is_full(&self) -> bool {
        self.events.len() >= MOST_TOGETHER
    }

    #[tactic(auto, using(crate::proofs::Owning::are_own))]
    pub fn events(&self) -> &[Event]
        ensures events { result.now ≡ self.now.events }
        ensures own { AllByRecursion IsOwn result.now }
        ensures few { length result.now ≤ 64 }
    {
        &self.events
    }

    pub fn places(&self) -> &[usize]
        ensures { result.now ≡ self.now.places }
    {
        &self.places
    }

    /// Takes an event of the client at a place. One that is no event of a process of the site is refused as memory is, and so
    /// is one for which there is no room.
    #[tactic(auto, using(crate::proofs::Owning::none_more))]
    pub fn take(&mut self, place: usize, event: Event) -> Result<(), AllocError>
        ensures events { OnOk result (self.new.events ≡ self.old.events ++ event ∷ []) }
        ensures places { OnOk result (self.new.places ≡ self.old.places ++ place ∷ []) }
        ensures refused { OnErr result (self.new ≡ self.old) }
    {
        if self.events.len() >= MOST_TOGETHER {
            return Err(AllocError);
        }
        if !is_own(&event) {
            return Err(AllocError);
        }
        self.events.reserve(1)?;
        self.places.reserve(1)?;
        self.events.push_reserved(event);
        self.places.push_reserved(place);
        Ok(())
    }

    pub fn clear(&mut self)
        ensures events { self.new.events ≡ [] }
        ensures places { self.new.places ≡ [] }
    {
        self.events.clear();
        self.places.clear();
    }
}

/// Whether it is an event of a process of the site, and no message that came.
fn is_own(event: &Event) -> bool
    ensures { result ≡ true → is_got event.now ≡ false }
{
    match event {
        Event::Got { .. } => false,
        _ => true,
    }
}
