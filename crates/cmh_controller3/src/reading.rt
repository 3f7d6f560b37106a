//! What a caller reads of the state of a controller, process by process.

ghost use Rattle.std.specs.Prelude.{◌≡◌, ◌==◌, ◌≤◌, ℕ, length, map};
ghost use Rattle.std.specs.List.Sorted.{IsStrictlyIncreasing};
ghost use Rattle.cmh_model3.specs.Lists.{IsAscending, in_list};
ghost use Rattle.cmh_waits3.specs.Rows.{since_in, targets_of};
ghost use Rattle.cmh_controller3.specs.Controller.{home_of, state_of};
ghost use Rattle.cmh_controller3.specs.Readings.{HasFacts};
ghost use Rattle.cmh_controller3.specs.Tables.{stamp_in};

use crate::changes::stamp_at;
use crate::controller::Controller;
use crate::mark_row::Mark;
use cmh_model3::{ProcId, Stamp};
use cmh_waits3::Wait;

impl Controller {
    /// The processes of the site, ascending. No other waits, owes a reply, has asked, or has marks here.
    pub fn members(&self) -> &[ProcId]
        ensures at_home { (p : ℕ) → in_list result.now p ≡ (home_of self.now p == self.now.site) }
        ensures ascending { IsStrictlyIncreasing result.now }
        ensures few { length result.now ≤ 256 }
        ensures facts { HasFacts self.now }
    {
        let _ = self.topology.sites();
        self.waits.members()
    }

    /// The waits of a process, ascending by those that it waits for, each with the stamp of the ask that began it. None for
    /// a process of another site.
    pub fn stamped_waits(&self, asker: ProcId) -> &[Wait]
        ensures targets { targets_of result.now ≡ (state_of self.now).waits asker }
        ensures ascending { IsAscending ((state_of self.now).waits asker) }
        ensures since { (k : ℕ) → since_in result.now k ≡ (state_of self.now).since asker k }
    {
        self.waits.waits_of(asker)
    }

    /// The marks of a process, ascending by their origins: at which stamp a probe of each went on at the process last. Such a
    /// mark may have stamp 0, which says that none did.
    pub fn marks_of(&self, process: ProcId) -> &[Mark]
        ensures ascending { IsAscending (map (λ mark. mark.origin) result.now) }
        ensures stamps { (i : ℕ) → stamp_in result.now i ≡ (state_of self.now).marks process i }
    {
        self.marks.row(process)
    }

    /// The stamp of the newest ask of a process; 0 before any.
    pub fn stamp_of(&self, process: ProcId) -> Stamp
        ensures { result ≡ (state_of self.now).stamp process }
    {
        stamp_at(&self.stamps, process)
    }
}
