//! What a client wants next.

ghost use Rattle.std.specs.Prelude.{◌≡◌, IfOk, OnErr};
ghost use Rattle.cmh_client.specs.Clients.{closes};
ghost use Rattle.cmh_client.specs.Wishes.{Wishes};

use crate::client::Client;
use crate::language::{Language, Meaning};
use crate::next::Next;
use std::alloc::AllocError;

/// What a client wants next.
#[derive(Drop)]
pub enum Wish<E, Q> {
    /// Its next line is an event. It stays the next one until it is taken.
    Event(E),
    /// Its next line is a question, and all lines before it were answered. It stays the next one until it is taken.
    Question(Q),
    /// Its next line has no answer, and was passed over.
    Silence,
    /// Nothing for now, or no more.
    Nothing,
}

impl Client {
    /// What it wants next. It leaves by its last line, and by bytes that become no line.
    pub fn wish<E: Drop, Q: Drop, L: Language<E, Q>>(
        &mut self,
        language: &mut L,
    ) -> Result<Wish<E, Q>, AllocError>
        ensures wish { IfOk result (λ wish. Wishes L.Means self.old wish self.new) }
        ensures closed { OnErr result (self.new ≡ closes self.old) }
    {
        let line = match self.next() {
            Next::Line(line) => line,
            Next::Nothing => return Ok(Wish::Nothing),
            Next::Endless => {
                self.leave();
                return Ok(Wish::Nothing);
            }
        };
        match language.read(line) {
            Ok(Meaning::Silence) => {
                self.skip();
                Ok(Wish::Silence)
            }
            Ok(Meaning::Event(event)) => Ok(Wish::Event(event)),
            Ok(Meaning::Question(question)) => {
                if self.waiting() > 0 {
                    return Ok(Wish::Nothing);
                }
                Ok(Wish::Question(question))
            }
            Ok(Meaning::Last) => {
                self.leave();
                Ok(Wish::Nothing)
            }
            Err(AllocError) => {
                self.close();
                Err(AllocError)
            }
        }
    }
}
