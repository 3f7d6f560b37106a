//! The waits of one process, to be put back.

ghost use Rattle.std.specs.Prelude.{◌≡◌, IfOk};

use crate::wait_list::WaitList;
use std::alloc::{AllocError, Global};
use std::marker::Model;

/// A copy of the waits of a process, and the room that putting it back takes. It can be put back at each site, whatever else
/// has changed there.
#[derive(Drop)]
pub struct WaitRow {
    pub(crate) waits: WaitList,
    /// The same once more: the list of those of them that are for processes of other sites is made of it.
    pub(crate) spare: WaitList,
}

impl Model for WaitRow {
    ghost use Rattle.std.specs.Prelude.{◌≡◌, List};
    ghost use Rattle.cmh_waits3.specs.declared.wait.Wait.{Wait};

    ghost Value = { List Wait };

    ghost view = { λ r. r.waits };

    ghost invariant = { λ r. r.spare ≡ r.waits };
}

impl WaitRow {
    pub(crate) fn of(alloc: Global, waits: &WaitList) -> Result<WaitRow, AllocError>
        ensures { IfOk result (λ row. row ≡ waits.now) }
    {
        Ok(WaitRow {
            waits: waits.copy(alloc)?,
            spare: waits.copy(alloc)?,
        })
    }
}
