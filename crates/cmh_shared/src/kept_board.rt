//! Boards that can be dropped: by what a station calls, and with the handle by which a board's end waits.

ghost use Rattle.std.specs.Prelude.{◌≡◌, ◌↔◌, ◌<◌, ◌++◌, ◌∷◌, [], length, OnOk, OnErr, IsTrue, true, false};
ghost use Rattle.cmh_shared.specs.KeptBoard.{kept_board};

use crate::board::Board;
use crate::reader::Told;
use cmh_runs::ProcId;
use std::alloc::AllocError;
use std::sync::Wait;

/// The writer's side of a board, whatever its end needs. The calls are those of `Board`.
pub trait Listing: Drop {
    ghost use Rattle.cmh_shared.specs.Boards.{Listed};

    ghost listed: { Self → Listed };

    fn len(&self) -> usize
        ensures { result ≡ length (listed self.now).list };

    fn is_shown(&self) -> bool
        ensures { IsTrue result ↔ ((listed self.now).shown ≡ (listed self.now).list) };

    fn is_out_of_memory(&self) -> bool
        ensures { result ≡ (listed self.now).out_of_memory };

    fn add(&mut self, process: ProcId) -> Result<(), AllocError>
        requires { length (listed self.old).list < 64 }
        ensures book { (listed self.new).book ≡ (listed self.old).book }
        ensures shown { (listed self.new).shown ≡ (listed self.old).shown }
        ensures ok { OnOk result ((listed self.new).list ≡ (listed self.old).list ++ process ∷ []) }
        ensures err { OnErr result ((listed self.new).list ≡ (listed self.old).list) }
        ensures had_memory { OnOk result ((listed self.new).out_of_memory ≡ false) }
        ensures had_none { OnErr result ((listed self.new).out_of_memory ≡ true) };

    fn publish<W: Wait>(&mut self, rt: &W) -> Result<(), AllocError>
        ensures book { (listed self.new).book ≡ (listed self.old).book }
        ensures list { (listed self.new).list ≡ (listed self.old).list }
        ensures ok { OnOk result ((listed self.new).shown ≡ (listed self.new).list) }
        ensures err { OnErr result ((listed self.new).shown ≡ (listed self.old).shown) }
        ensures had_memory { OnOk result ((listed self.new).out_of_memory ≡ false) }
        ensures had_none { OnErr result ((listed self.new).out_of_memory ≡ true) };

    fn tell(&self) -> Told
        ensures book { result.book ≡ (listed self.now).book }
        ensures list { result.list ≡ (listed self.now).shown };
}

/// A board with the handle by which it waits, where it is dropped, for a `read` that is under way.
pub struct KeptBoard<R: Wait + Drop> {
    board: Board,
    rt: R,
}

impl<R: Wait + Drop> KeptBoard<R> {
    pub fn new(board: Board, rt: R) -> KeptBoard<R>
        ensures { kept_board result ≡ board }
    {
        KeptBoard { board, rt }
    }
}

impl<R: Wait + Drop> Listing for KeptBoard<R> {
    ghost listed = { λ k. k.board };

    fn len(&self) -> usize {
        self.board.len()
    }

    fn is_shown(&self) -> bool {
        self.board.is_shown()
    }

    fn is_out_of_memory(&self) -> bool {
        self.board.is_out_of_memory()
    }

    fn add(&mut self, process: ProcId) -> Result<(), AllocError> {
        self.board.add(process)
    }

    fn publish<W: Wait>(&mut self, rt: &W) -> Result<(), AllocError> {
        self.board.publish(rt)
    }

    fn tell(&self) -> Told {
        self.board.tell()
    }
}

impl<R: Wait + Drop> Drop for KeptBoard<R> {
    fn drop(self) {
        let KeptBoard { board, rt } = self;
        board.close(&rt);
    }
}
