//! The history of a board: all processes that were ever put on it, in their order. It exists in proofs alone; what runs
//! is its length.

ghost use Rattle.std.specs.Prelude.{◌≡◌, ◌+◌, ◌<◌, ◌^◌, ◌++◌, [], ◌∷◌, length as list_length, IfErr, MatchResult};
ghost use Rattle.cmh_runs.specs.Runs.{IsBeginningOf};
ghost use Rattle.cmh_shared.specs.History.{head_of};

use cmh_runs::ProcId;
use logbook::{Gain, Offer, Plain, Play, Rule, Seen, Start, Word};

/// The rule of the history: the shared word is its length.
pub struct History;

/// That the history was seen up to some entry.
pub type SeenHistory = Seen<ProcId, u64, History>;

/// The shared word.
pub type Head = Word<ProcId, u64, History>;

impl Rule<ProcId, u64> for History {
    ghost use Rattle.std.specs.Prelude.{[]};
    ghost use base.Fml.{ftrue};
    ghost use Rattle.cmh_shared.specs.History.{IsKept};

    ghost holds = { λ cells log. IsKept cells log };

    ghost first = { [] };

    ghost hinted = { λ n log. Unit {0} };

    ghost shows = { λ log. [] };

    ghost keeps = { λ names log. ftrue };

    ghost moves = { λ ask before after answer. Unit {0} };
}

/// Whoever adds an entry trades nothing for it.
pub struct Nothing;

impl Gain<ProcId, u64> for Nothing {
    ghost use base.Fml.{ftrue};

    ghost after = { λ names about answer. ftrue };
}

/// The step that adds an entry.
pub struct Adding;

impl Play<ProcId, u64> for Adding {
    ghost use Rattle.cmh_shared.specs.History.{Adds};

    ghost then = { Adds };
}

impl Plain<ProcId, ProcId, u64> for Adding {
    ghost use Rattle.std.specs.Prelude.{None};

    ghost ask = { λ process. process };

    ghost state = { λ process. None };
}

/// An empty history: its word, and what was seen of it.
pub fn begin() -> (Head, SeenHistory)
    ensures head { result.0 ≡ head_of result.1.book }
    ensures empty { result.1.log ≡ [] }
{
    let (seen, mut first, _second) = Seen::open(Start::alone(), 0, 0);
    let head = Word::tracked(0, &mut first);
    (head, seen)
}

/// Adds an entry to the history, where all of it was seen. Where the history is longer, its length comes back and all
/// of it is seen.
pub fn grow(head: &Head, seen: &mut SeenHistory, length: u64, process: ProcId) -> Result<(), u64>
    requires head { head.now ≡ head_of seen.old.book }
    requires length { length ≡ list_length seen.old.log }
    requires room { length < 2 ^ 62 }
    ensures book { seen.new.book ≡ seen.old.book }
    ensures grows { IsBeginningOf seen.old.log seen.new.log }
    ensures added { MatchResult result (λ _. seen.new.log ≡ seen.old.log ++ process ∷ [])
        (λ found. found ≡ list_length seen.new.log) }
    ensures longer { IfErr result (λ found. length < found) }
{
    let mut offer: Offer<ProcId, u64, History, Nothing> = seen.plain::<Nothing, ProcId, Adding>(
        &process,
    );
    let mut pen = seen.no_pen();
    let found = head.compare_exchange::<Adding, Nothing>(
        length,
        length + 1,
        seen,
        &mut offer,
        &mut pen,
    );
    if found == length { Ok(()) } else { Err(found) }
}
