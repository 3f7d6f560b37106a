//! The writer's side of the board.

ghost use Rattle.std.specs.Prelude.{◌≡◌, ◌↔◌, ◌<◌, ◌≤◌, ◌++◌, [], ◌∷◌, All, IsTrue, true, false, length, IfOk, OnOk, OnErr};
ghost use Rattle.std.specs.Vec.{vec_len};
ghost use Rattle.cmh_shared.specs.Boards.{IsEmptyFront};

use crate::history::{Head, SeenHistory, begin, grow};
use crate::published::Add;
use crate::reader::{BoardReader, Told};
use crate::writer::{PublishedWriter, add_readers, open_writer, publish_all, publish_in, unstick};
use cmh_runs::ProcId;
use std::alloc::{AllocError, Global};
use std::marker::Model;
use std::sync::Wait;

/// The writer's side of a board. Contracts see all that was added, and what of it is published. It is not `Drop`: end
/// it by `close`.
pub struct Board {
    head: Head,
    seen: SeenHistory,
    // The lengths of the history and of the list. They are equal: nobody else writes into the history.
    length: u64,
    count: usize,
    writer: PublishedWriter,
    // An operation for which the writer had no memory.
    stuck: Option<Add>,
    // The last call of `add` or `publish` was refused memory.
    out_of_memory: bool,
}

impl Model for Board {
    ghost use Rattle.std.specs.Prelude.{◌≡◌, drop};
    ghost use Rattle.left_right.specs.Sides.{view as seat_view};
    ghost use Rattle.cmh_shared.specs.History.{head_of};
    ghost use Rattle.cmh_shared.specs.Boards.{Listed, Keeps, final, with_stuck};

    ghost Value = { Listed };

    ghost view = { λ b. record {
      book = b.seen.book;
      list = with_stuck (final b.writer.desk.shown.value (drop b.writer.behind b.writer.log.items)).0 b.stuck;
      shown = b.writer.desk.shown.value.list;
      out_of_memory = b.out_of_memory;
    } };

    ghost invariant = { λ b. (b.head ≡ head_of b.seen.book)
        × Keeps b.seen.book b.seen.log b.length b.count b.writer.desk.shown.value
        (drop b.writer.behind b.writer.log.items) b.stuck (seat_view b.writer.desk.place) };
}

impl Board {
    /// A board with an empty list, and its readers. It publishes once, when nobody reads. An error is out of memory.
    pub fn new<R: Wait>(
        rt: &R,
        alloc: Global,
        readers: usize,
    ) -> Result<(Board, Vec<BoardReader>), AllocError>
        requires { readers ≤ 4 }
        ensures list { IfOk result (λ r. (r.0.list ≡ []) × (r.0.shown ≡ [])) }
        ensures memory { IfOk result (λ r. r.0.out_of_memory ≡ false) }
        ensures count { IfOk result (λ r. vec_len r.1 ≡ readers) }
        ensures readers { IfOk result (λ r. All (λ reader. IsEmptyFront r.0.book reader) r.1.items) }
    {
        let mut made = Vec::with_capacity(alloc, readers)?;
        let (head, seen) = begin();
        let writer = open_writer(alloc, &seen, readers.max(1))?;
        let mut writer = publish_all(rt, writer);
        match add_readers(&mut writer, &seen, readers, &mut made) {
            Ok(()) => {}
            Err(_) => {
                drop(writer.take(rt));
                return Err(AllocError);
            }
        }
        let board = Board {
            head,
            seen,
            length: 0,
            count: 0,
            writer,
            stuck: None,
            out_of_memory: false,
        };
        Ok((board, made))
    }

    /// The end of the board: from now on its readers read nothing. It waits for a `read` that is under way.
    pub fn close<R: Wait>(self, rt: &R) {
        let Board {
            head: _head,
            seen: _seen,
            length: _,
            count: _,
            writer,
            stuck: _stuck,
            out_of_memory: _,
        } = self;
        drop(writer.take(rt));
    }

    /// How many were added.
    pub fn len(&self) -> usize
        ensures { result ≡ length self.now.list }
    {
        self.count
    }

    /// Whether all that was added is published.
    pub fn is_shown(&self) -> bool
        ensures { IsTrue result ↔ (self.now.shown ≡ self.now.list) }
    {
        self.writer.published().list.len() == self.count
    }

    /// Whether the last call of `add` or `publish` was refused memory.
    pub fn is_out_of_memory(&self) -> bool
        ensures { result ≡ self.now.out_of_memory }
    {
        self.out_of_memory
    }

    /// Adds a process, which is not published yet. Where memory is refused nothing is added.
    pub fn add(&mut self, process: ProcId) -> Result<(), AllocError>
        requires { length self.old.list < 64 }
        ensures book { self.new.book ≡ self.old.book }
        ensures shown { self.new.shown ≡ self.old.shown }
        ensures ok { OnOk result (self.new.list ≡ self.old.list ++ process ∷ []) }
        ensures err { OnErr result (self.new.list ≡ self.old.list) }
        ensures had_memory { OnOk result (self.new.out_of_memory ≡ false) }
        ensures had_none { OnErr result (self.new.out_of_memory ≡ true) }
    {
        self.out_of_memory = true;
        match unstick(&mut self.writer, &mut self.stuck) {
            Ok(()) => {}
            Err(_) => return Err(AllocError),
        }
        if self.length != self.count as u64 {
            return Err(AllocError);
        }
        let length = self.length;
        match grow(&self.head, &mut self.seen, length, process) {
            Ok(()) => {}
            Err(found) => {
                self.length = found;
                return Err(AllocError);
            }
        }
        self.length = length + 1;
        self.count += 1;
        self.stuck = Some(Add {
            process,
            seen: self.seen.again(),
        });
        self.out_of_memory = false;
        Ok(())
    }

    /// Publishes all that was added, or nothing where memory is refused. It may wait for a `read` that is under way, but
    /// not where all is published already.
    pub fn publish<R: Wait>(&mut self, rt: &R) -> Result<(), AllocError>
        ensures book { self.new.book ≡ self.old.book }
        ensures list { self.new.list ≡ self.old.list }
        ensures ok { OnOk result (self.new.shown ≡ self.new.list) }
        ensures err { OnErr result (self.new.shown ≡ self.old.shown) }
        ensures had_memory { OnOk result (self.new.out_of_memory ≡ false) }
        ensures had_none { OnErr result (self.new.out_of_memory ≡ true) }
    {
        if self.is_shown() {
            self.out_of_memory = false;
            return Ok(());
        }
        self.out_of_memory = true;
        match unstick(&mut self.writer, &mut self.stuck) {
            Ok(()) => {}
            Err(_) => return Err(AllocError),
        }
        publish_in(rt, &mut self.writer);
        self.out_of_memory = false;
        Ok(())
    }

    /// A token of the published list.
    pub fn tell(&self) -> Told
        ensures book { result.book ≡ self.now.book }
        ensures list { result.list ≡ self.now.shown }
    {
        Told {
            count: self.writer.published().list.len(),
            seen: self.seen.again(),
        }
    }
}
