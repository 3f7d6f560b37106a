//! What the lines of clients mean.

ghost use Rattle.std.specs.Prelude.{◌≡◌, true, IfOk};

use std::alloc::AllocError;

/// What a line means.
#[derive(Drop)]
pub enum Meaning<E, Q> {
    /// Nothing: it has no answer.
    Silence,
    /// Something to be done, which is answered later.
    Event(E),
    /// Something that is answered once all lines before it were.
    Question(Q),
    /// The end: it has no answer, and what comes behind it does not count.
    Last,
}

/// What lines mean: events and questions.
pub trait Language<E, Q> {
    ghost use Rattle.std.specs.Prelude.{ℕ, List};
    ghost use Rattle.cmh_client.specs.declared.language.Meaning.{Meaning as TheMeaning};

    /// What a line means, its line feed with it.
    ghost Means: { List ℕ → TheMeaning E Q → Type 0 };

    /// A text that answers an event.
    ghost Answers: { E → List ℕ → Type 0 };

    /// A text that answers a question.
    ghost Replies: { Q → List ℕ → Type 0 };

    /// Whether an event is the same as another one.
    fn same_event(&self, event: &E, other: &E) -> bool
        ensures { result ≡ true → event.now ≡ other.now };

    /// The only error is out of memory.
    fn read(&mut self, line: &[u8]) -> Result<Meaning<E, Q>, AllocError>
        ensures { IfOk result (Means line.now) };
}
