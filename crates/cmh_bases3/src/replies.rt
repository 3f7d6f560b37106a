//! What processes of a site owe one another.

ghost use Rattle.std.specs.Prelude.{◌≡◌, ◌↔◌, ◌+◌, ◌*◌, ◌<◌, IsTrue};
ghost use Rattle.cmh_segment3.specs.Base.{IsPairRow, pair_place};
ghost use Rattle.cmh_segment3.specs.Rows.{AreRows};
ghost use Rattle.cmh_segment3.specs.States.{has_pair};
ghost use Rattle.cmh_topology3.specs.Topology.{site_of};
ghost use Rattle.cmh_bases3.specs.Bases.{OweWhoWaits};

use cmh_model3::{ProcId, SiteId};
use cmh_segment3::{Pair, StampedPair};
use cmh_topology3::Topology;

/// Whether each process of the site owes who waits for it a reply.
pub fn owe_who_waits(
    topology: &Topology,
    site: SiteId,
    owed: &[Pair],
    waits: &[StampedPair],
) -> bool
    requires { AreRows IsPairRow pair_place owed.now }
    ensures { IsTrue result ↔ OweWhoWaits (site_of topology.now) site owed.now waits.now }
{
    for wait in waits {
        if topology.is_at(wait.second, site) && !owes(owed, wait.second, wait.first) {
            return false;
        }
    }
    true
}

/// Whether these rows say that the holder owes the asker a reply.
fn owes(rows: &[Pair], holder: ProcId, asker: ProcId) -> bool
    requires { AreRows IsPairRow pair_place rows.now }
    ensures { result ≡ has_pair rows.now holder asker }
{
    let place = place_of(holder, asker);
    rows.binary_search_by_key(&place, |row| place_of(row.first, row.second))
        .is_ok()
}

/// Where a row of two processes stands: by the first, and then by the second.
fn place_of(first: ProcId, second: ProcId) -> u32
    ensures place { result ≡ first * 65536 + second }
    ensures number { second < 65536 }
{
    u32::from(first.get()) * 65536 + u32::from(second.get())
}
