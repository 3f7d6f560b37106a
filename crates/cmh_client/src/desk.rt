//! Where events of several clients wait for the step that takes them together, and from where each client gets its answers.

ghost use Rattle.std.specs.Prelude.{◌≡◌, ◌≤◌, ◌++◌, ◌∷◌, [], length, vec_len, OnOk, OnErr};
ghost use Rattle.std.specs.List.{zip};
ghost use Rattle.cmh_client.specs.Desks.{AreReplies, given_and};

use std::alloc::{AllocError, Global};

/// So many events wait at most.
pub const MOST_TOGETHER: usize = 64;

/// Who is given replies to events, each client at a place of its own.
pub trait Waiting<E, R> {
    ghost use Rattle.std.specs.Prelude.{ℕ, List, Option};

    /// The replies that were given, each with the place of its client, the first one first, where that is told.
    ghost given: { Self → Option (List (ℕ × R)) };

    /// Whether a reply is one to an event.
    ghost Replies: { E → R → Type 0 };

    /// Gives the client at a place the reply to an event of it. Where it went away nobody gets it.
    fn give(&mut self, place: usize, event: E, reply: R)
        requires { Replies event reply }
        ensures { given self.new ≡ given_and (given self.old) ((place, reply) ∷ []) };
}

/// Events that wait, in the order in which they were taken, each with the place of its client.
#[derive(Drop)]
pub struct Desk<E> {
    events: Vec<E>,
    places: Vec<usize>,
    ghost both: { vec_len events ≡ vec_len places },
    ghost few: { vec_len events ≤ 64 },
}

impl<E: Drop> Desk<E> {
    /// Nothing waits.
    pub fn new(alloc: Global) -> Result<Desk<E>, AllocError> {
        Ok(Desk {
            events: Vec::with_capacity(alloc, MOST_TOGETHER)?,
            places: Vec::with_capacity(alloc, MOST_TOGETHER)?,
        })
    }

    pub fn events(&self) -> &[E]
        ensures events { result.now ≡ self.now.events.items }
        ensures few { length result.now ≤ 64 }
    {
        &self.events
    }

    /// Takes an event of the client at a place.
    pub fn take(&mut self, place: usize, event: E) -> Result<(), AllocError>
        ensures events { OnOk result (self.new.events.items ≡ self.old.events.items ++ event ∷ []) }
        ensures places { OnOk result (self.new.places.items ≡ self.old.places.items ++ place ∷ []) }
        ensures none { OnErr result (self.new.events.items ≡ self.old.events.items) }
        ensures none_there { OnErr result (self.new.places.items ≡ self.old.places.items) }
    {
        if self.events.len() >= MOST_TOGETHER {
            return Err(AllocError);
        }
        self.events.reserve(1)?;
        self.places.reserve(1)?;
        self.events.push_reserved(event);
        self.places.push_reserved(place);
        Ok(())
    }

    /// Gives each client the replies to its events, in their order. Then nothing waits.
    pub fn hand_back<R: Copy, W: Waiting<E, R>>(&mut self, replies: &[R], waiting: &mut W)
        requires { AreReplies W.Replies self.old.events.items replies.now }
        ensures given { W.given waiting.new
            ≡ given_and (W.given waiting.old) (zip self.old.places.items replies.now) }
        ensures none { self.new.events.items ≡ [] }
    {
        give_all(&mut self.events, &mut self.places, replies, waiting);
    }
}

/// Gives the client at each place the reply to the event there, and takes both from the lists.
#[tactic(auto, using(crate::proofs::Desks::reply_count))]
fn give_all<E: Drop, R: Copy, W: Waiting<E, R>>(
    events: &mut Vec<E>,
    places: &mut Vec<usize>,
    replies: &[R],
    waiting: &mut W,
)
    requires both { length events.old.items ≡ length places.old.items }
    requires replies { AreReplies W.Replies events.old.items replies.now }
    ensures given { W.given waiting.new
        ≡ given_and (W.given waiting.old) (zip places.old.items replies.now) }
    ensures no_events { events.new.items ≡ [] }
    ensures no_places { places.new.items ≡ [] }
{
    // From behind each is taken in one move.
    events.reverse();
    places.reverse();
    for at in 0..replies.len() {
        let Some(event) = events.pop() else {
            unreachable!();
        };
        let Some(place) = places.pop() else {
            unreachable!();
        };
        waiting.give(place, event, replies[at]);
    }
}
