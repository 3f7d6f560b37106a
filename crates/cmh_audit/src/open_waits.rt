//! The waits that are open so far, found by their askers' numbers.

ghost use Rattle.std.specs.Prelude.{◌≡◌, ◌↔◌, ◌++◌, ◌<◌, ℕ, false, true, map, length, Contains, OnOk, OnErr, IfOk};
ghost use Rattle.std.specs.List.Sorted.{IsStrictlySortedBy};
ghost use Rattle.cmh_frames.specs.Relation.{pair_cmp};
ghost use Rattle.cmh_audit.specs.Turns.{is_open, Turns};
ghost use Rattle.cmh_audit.specs.Inner.Turns.{one_at, SameOpen};

use cmh_frames::ProcId;
use cmh_waits::ProcBits;
use std::alloc::{AllocError, Global};
use std::marker::Model;

/// The pairs of an asker and a holder with an odd number of asks and replies so far.
///
/// It grows up to the greatest asker's number, and does not shrink.
#[derive(Drop)]
pub struct OpenWaits {
    alloc: Global,

    /// The holders for whom each asker waits, at the asker's number.
    rows: Vec<ProcBits>,
}

impl Model for OpenWaits {
    ghost use Rattle.std.specs.Prelude.{ℕ, List};
    ghost use Rattle.cmh_audit.specs.Inner.Turns.{AreByAsker};

    ghost Value = { List (List ℕ) };

    ghost view = { λ o. o.rows.items };

    ghost invariant = { λ o. AreByAsker o.rows.items };
}

impl OpenWaits {
    /// Nothing is open. Takes no memory.
    pub fn new(alloc: Global) -> OpenWaits
        ensures { (j k : ℕ) → is_open result j k ≡ false }
    {
        OpenWaits {
            alloc,
            rows: Vec::new(alloc),
        }
    }

    /// Opens the wait, or ends it where it is open. Where memory is refused, all stay as they were.
    #[inline(always)]
    pub fn turn(&mut self, asker: ProcId, holder: ProcId) -> Result<(), AllocError>
        ensures ok { OnOk result (Turns self.old self.new (one_at asker holder)) }
        ensures err { OnErr result (SameOpen self.old self.new) }
    {
        if self.rows.len() <= asker.get() as usize {
            self.lengthen(asker)?;
        }
        self.rows[asker.get() as usize].turn(holder)
    }

    /// The open waits, ascending.
    pub fn pairs(&self, alloc: Global) -> Result<Vec<(ProcId, ProcId)>, AllocError>
        ensures pairs { IfOk result (λ list. (j k : ℕ) → Contains list.items (j, k)
            ↔ (is_open self.now j k ≡ true)) }
        ensures ascending { IfOk result (λ list. IsStrictlySortedBy pair_cmp list.items) }
    {
        let mut pairs = Vec::new(alloc);
        for index in 0..self.rows.len() {
            if let Some(asker) = ProcId::new(index as u16) {
                let holders = self.rows[index].to_vec(alloc)?;
                push_row(&mut pairs, asker, &holders)?;
            }
        }
        Ok(pairs)
    }

    /// Adds empty lists, up to that of this asker. They lack so seldom that it stands apart from the wait that is turned.
    #[inline(never)]
    fn lengthen(&mut self, asker: ProcId) -> Result<(), AllocError>
        ensures room { OnOk result (asker < length self.new) }
        ensures same { SameOpen self.old self.new }
    {
        for _ in self.rows.len()..asker.get() as usize + 1 {
            self.rows.push(ProcBits::empty(self.alloc))?;
        }
        Ok(())
    }
}

/// Adds the pairs of one asker.
fn push_row(
    pairs: &mut Vec<(ProcId, ProcId)>,
    asker: ProcId,
    holders: &[ProcId],
) -> Result<(), AllocError>
    ensures { OnOk result (pairs.new.items ≡ pairs.old.items ++ map (λ k. (asker, k)) holders.now) }
{
    for holder in holders {
        pairs.push((asker, *holder))?;
    }
    Ok(())
}
