//! How many columns and rows a picture takes.

ghost use Rattle.std.specs.Prelude.{◌≤◌, length};
ghost use Rattle.std.specs.List.{AllByRecursion};
ghost use Rattle.cmh_frames.specs.Topology.{sites_of, members_of};

use crate::columns::Columns;
use cmh_frames::Topology;

/// One more than the last column of all.
pub fn width_of(columns: &[Columns]) -> u32
    ensures { AllByRecursion (λ site. AllByRecursion (λ column. column ≤ result) site) columns.now }
{
    let mut width = 1;
    for site in columns {
        width = larger(width, last_of(site.as_slice()).saturating_add(1));
    }
    width
}

/// The last of the columns; 0 where there is none.
fn last_of(columns: &[u32]) -> u32
    ensures { AllByRecursion (λ column. column ≤ result) columns.now }
{
    let mut last = 0;
    for column in columns {
        last = larger(last, *column);
    }
    last
}

/// How many processes the largest site has, and 1 at least.
pub fn height_of(topology: &Topology) -> u32
    ensures { AllByRecursion (λ site. length (members_of topology.now site) ≤ result) (sites_of topology.now) }
{
    let mut height = 1;
    for site in topology.sites() {
        height = larger(height, topology.members(*site).len() as u32);
    }
    height
}

const fn larger(a: u32, b: u32) -> u32
    ensures first { a ≤ result }
    ensures second { b ≤ result }
{
    if a < b { b } else { a }
}
