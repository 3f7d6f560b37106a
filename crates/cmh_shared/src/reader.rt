//! A reader of the board, and the tokens that it learns.

ghost use Rattle.std.specs.Prelude.{◌≡◌, ◌⊎◌, IfSome, IfNone, length};
ghost use Rattle.left_right.specs.Sides.{view as seat_view};
ghost use Rattle.cmh_runs.specs.Runs.{IsBeginningOf};
ghost use Rattle.cmh_shared.specs.Rule.{Saw};

use crate::declared::Declared;
use crate::history::SeenHistory;
use crate::published::Published;
use crate::rule::{BoardRule, Known, Sees};
use core::mem::replace_with;
use left_right::reader::Reader;
use std::marker::Model;

pub(crate) type PublishedReader = Reader<Published, Known, BoardRule>;

/// That a board had a list. It holds the list's length alone: the list is for readers to read.
#[derive(Drop)]
pub struct Told {
    pub(crate) count: usize,
    pub(crate) seen: SeenHistory,
}

impl Model for Told {
    ghost use Rattle.std.specs.Prelude.{◌≤◌, length, take};
    ghost use Rattle.cmh_shared.specs.Fronts.{Front};

    ghost Value = { Front };

    ghost view = { λ t. record { book = t.seen.book; list = take t.count t.seen.log } };

    ghost invariant = { λ t. t.count ≤ length t.seen.log };
}

impl Told {
    /// How long the list is.
    pub fn len(&self) -> usize
        ensures { result ≡ length self.now.list }
    {
        self.count
    }
}

/// A reader of one board. Contracts see the longest list that it read or learnt.
#[derive(Drop)]
pub struct BoardReader {
    pub(crate) reader: PublishedReader,
    // How long that list is, and a history that it begins.
    pub(crate) count: usize,
    pub(crate) seen: SeenHistory,
}

impl Model for BoardReader {
    ghost use Rattle.std.specs.Prelude.{◌≡◌, ◌≤◌, length, take};
    ghost use Rattle.left_right.specs.Sides.{view as seat_view};
    ghost use Rattle.cmh_shared.specs.Fronts.{Front};
    ghost use Rattle.cmh_shared.specs.Rule.{named};

    ghost Value = { Front };

    ghost view = { λ r. record { book = r.seen.book; list = take r.count r.seen.log } };

    ghost invariant = { λ r. (r.count ≤ length r.seen.log) × (seat_view r.reader.place ≡ named r.seen.book) };
}

/// Reads what is published, or gives nothing where the writer's side is gone.
fn read_as(reader: PublishedReader) -> (PublishedReader, Option<Published>)
    ensures none { IfNone result.1 (seat_view result.0.place ≡ seat_view reader.place) }
    ensures some { IfSome result.1 (λ s. Saw (seat_view reader.place) s s (seat_view result.0.place)) }
{
    match reader.enter_as::<Sees>() {
        Ok(reading) => {
            let published = reading.get();
            let again = published.again();
            (reading.leave(), Some(again))
        }
        Err(reader) => (reader, None),
    }
}

/// The same of a reader that stays where it is.
fn look(reader: &mut PublishedReader) -> Option<Published>
    ensures none { IfNone result (seat_view reader.new.place ≡ seat_view reader.old.place) }
    ensures some { IfSome result (λ s. Saw (seat_view reader.old.place) s s (seat_view reader.new.place)) }
{
    replace_with(reader, (), |reader, _| read_as(reader))
}

impl BoardReader {
    /// The published list, which begins with each list that this reader read or learnt before. It waits for nobody and
    /// takes no memory.
    /// `None` where the board gives none, as it does once its writer is gone; then nothing is read.
    pub fn read(&mut self) -> Option<Declared>
        ensures book { self.new.book ≡ self.old.book }
        ensures some { IfSome result (λ list. self.new.list ≡ list) }
        ensures grows { IfSome result (λ list. IsBeginningOf self.old.list list) }
        ensures none { IfNone result (self.new.list ≡ self.old.list) }
    {
        let Some(published) = look(&mut self.reader) else {
            return None;
        };
        let length = published.list.len();
        // A list that was told was published before, so what is published now is no shorter.
        if length < self.count {
            return None;
        }
        let mut both = self.seen.again();
        both.learn(&published.seen);
        let Published { list, seen } = published;
        self.count = length;
        self.seen = seen;
        Some(list)
    }

    /// Takes in that the board had a list: each list that is read later begins with it. It waits for nobody and takes
    /// no memory.
    pub fn learn(&mut self, told: &Told)
        requires { told.now.book ≡ self.old.book }
        ensures book { self.new.book ≡ self.old.book }
        ensures this { IsBeginningOf self.old.list self.new.list }
        ensures that { IsBeginningOf told.now.list self.new.list }
        ensures one { (self.new.list ≡ self.old.list) ⊎ (self.new.list ≡ told.now.list) }
    {
        let mut both = self.seen.again();
        both.learn(&told.seen);
        if self.count < told.count {
            self.count = told.count;
            self.seen = told.seen.again();
        }
    }
}
