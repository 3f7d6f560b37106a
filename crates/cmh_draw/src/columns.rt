//! In which column of a run each entry stands.

ghost use Rattle.std.specs.Prelude.{◌≡◌, ◌≤◌, ◌-◌, ◌↔◌, [], IfOk, IsTrue, get_or, length, slice_index};
ghost use Rattle.cmh_frames.specs.Rules.{IsAscending};
ghost use Rattle.cmh_draw.specs.Inner.Columns.{AreColumns, lengths_of};

use crate::arrows::arrows_of;
use crate::drawn_run::DrawnRun;
use crate::mark::{Arrow, EntrySpot};
use cmh_audit::entries_at;
use cmh_frames::Topology;
use cmh_journal::Journal;
use std::alloc::{AllocError, Global};
use std::marker::Model;

/// The column of each entry of a site, in their order.
#[derive(Drop)]
pub struct Columns {
    columns: Vec<u32>,
}

impl Model for Columns {
    ghost use Rattle.std.specs.Prelude.{ℕ, List};

    ghost Value = { List ℕ };

    ghost view = { λ c. c.columns.items };
}

impl Columns {
    fn new(columns: Vec<u32>) -> Self
        ensures { result ≡ columns.items }
    {
        Columns { columns }
    }

    pub fn as_slice(&self) -> &[u32]
        ensures { result.now ≡ self.now }
    {
        &self.columns
    }
}

/// The columns of the entries of each site: ascending, and as far to the left as they can be with the entry that sent a
/// frame on the left of the one that got it. In journals that come from no run a frame may go back.
pub fn columns_of(
    alloc: Global,
    topology: &Topology,
    journals: &[Journal],
) -> Result<Vec<Columns>, AllocError>
    ensures { IfOk result (λ columns. AreColumns (lengths_of topology.now journals.now) columns.items) }
{
    let found = search(alloc, topology, journals)?;
    let mut all = Vec::new(alloc);
    for (row, site) in topology.sites().iter().enumerate() {
        let count = entries_at(journals, *site).len();
        let columns = checked(alloc, count, &found, row)?;
        all.push(columns)?;
    }
    Ok(all)
}

/// The columns that were found for the entries of a site, where they are so many and ascend, as they always are. More
/// than `u32` can number count as out of memory.
pub fn checked(
    alloc: Global,
    count: usize,
    found: &[Columns],
    row: usize,
) -> Result<Columns, AllocError>
    ensures length { IfOk result (λ site. length site ≡ count) }
    ensures ascending { IfOk result (λ site. IsAscending site) }
{
    if let Some(site) = found.get(row) {
        if is_good(count, site.as_slice()) {
            let columns = site.as_slice().to_vec(alloc)?;
            return Ok(Columns::new(columns));
        }
    }
    numbers_to(alloc, count)
}

fn is_good(count: usize, columns: &[u32]) -> bool
    ensures length { IsTrue result → length columns.now ≡ count }
    ensures ascending { IsTrue result → IsAscending columns.now }
{
    columns.len() == count && is_ascending(columns)
}

fn is_ascending(columns: &[u32]) -> bool
    ensures { IsTrue result ↔ IsAscending columns.now }
{
    columns.is_sorted_by(|earlier, later| earlier < later)
}

/// Each entry in the column of its number, from 0.
fn numbers_to(alloc: Global, count: usize) -> Result<Columns, AllocError>
    ensures length { IfOk result (λ site. length site ≡ count) }
    ensures ascending { IfOk result (λ site. IsAscending site) }
{
    let mut columns = Vec::new(alloc);
    for i in 0..count {
        if i > u32::MAX as usize {
            return Err(AllocError);
        }
        columns.push(i as u32)?;
    }
    Ok(Columns::new(columns))
}

/// The column of an entry; 0 where there is no such entry.
pub fn column_of(columns: &[Columns], row: u32, number: usize) -> u32
    ensures { result ≡ slice_index (get_or columns.now row []) (number - 1) }
{
    match columns.get(row as usize) {
        Some(site) => column_in(site.as_slice(), number),
        None => 0,
    }
}

fn column_in(columns: &[u32], number: usize) -> u32
    ensures { result ≡ slice_index columns.now (number - 1) }
{
    match columns.get(number.saturating_sub(1)) {
        Some(column) => *column,
        None => 0,
    }
}

/// Of each entry of a site the one that sent what it got.
#[derive(Drop)]
struct Sources {
    sources: Vec<Option<EntrySpot>>,
}

/// Looks for the columns, by the arrows between entries that have none yet. Of what it answers nothing is promised.
fn search(
    alloc: Global,
    topology: &Topology,
    journals: &[Journal],
) -> Result<Vec<Columns>, AllocError> {
    let unplaced = DrawnRun {
        topology,
        journals,
        columns: &[],
    };
    let arrows = arrows_of(alloc, &unplaced)?;
    let mut lengths = Vec::new(alloc);
    for site in topology.sites() {
        lengths.push(entries_at(journals, *site).len())?;
    }
    search_by(alloc, &lengths, &arrows)
}

/// The same, where each site has so many entries, by the arrows between them.
pub fn search_by(
    alloc: Global,
    lengths: &[usize],
    arrows: &[Arrow],
) -> Result<Vec<Columns>, AllocError> {
    let sources = sources_of(alloc, lengths, arrows)?;
    let mut found = Vec::new(alloc);
    for _ in lengths {
        let columns = Vec::new(alloc);
        found.push(Columns::new(columns))?;
    }
    let mut is_stuck = false;
    for _ in 0..u64::MAX {
        let mut has_moved = false;
        for (row, sources) in sources.iter().enumerate() {
            if take(row, sources, &mut found, is_stuck)? {
                has_moved = true;
                is_stuck = false;
            }
        }
        if !has_moved {
            if is_stuck {
                break;
            }
            is_stuck = true;
        }
    }
    Ok(found)
}

fn sources_of(
    alloc: Global,
    lengths: &[usize],
    arrows: &[Arrow],
) -> Result<Vec<Sources>, AllocError> {
    let mut all = Vec::new(alloc);
    for length in lengths {
        let mut sources = Vec::new(alloc);
        sources.resize(*length, None)?;
        all.push(Sources { sources })?;
    }
    for arrow in arrows {
        if let Some(at) = arrow.got {
            if let Some(site) = all.get_mut(at.spot.row as usize) {
                if let Some(source) = site.sources.get_mut(at.number.saturating_sub(1)) {
                    *source = Some(arrow.from);
                }
            }
        }
    }
    Ok(all)
}

/// Places the next entries of a site whose frames were sent by entries that are placed; where no entry of any site is
/// so, the next one whatever it got. Answers whether one was placed.
fn take(
    row: usize,
    sources: &Sources,
    found: &mut Vec<Columns>,
    is_stuck: bool,
) -> Result<bool, AllocError> {
    let mut has_moved = false;
    let mut is_free = is_stuck;
    for _ in 0..sources.sources.len() {
        let Some(column) = next_column(row, sources, found, is_free) else {
            return Ok(has_moved);
        };
        if let Some(site) = found.get_mut(row) {
            site.columns.push(column)?;
        }
        has_moved = true;
        is_free = false;
    }
    Ok(has_moved)
}

/// The column of the next entry of a site, if it can be placed.
fn next_column(row: usize, sources: &Sources, found: &[Columns], is_free: bool) -> Option<u32> {
    let placed = found.get(row)?.as_slice();
    let source = *sources.sources.get(placed.len())?;
    let behind = match placed.last() {
        Some(column) => column.saturating_add(1),
        None => 0,
    };
    match source {
        Some(at) => match found
            .get(at.spot.row as usize)?
            .as_slice()
            .get(at.number.saturating_sub(1))
        {
            Some(column) => Some(behind.max(column.saturating_add(1))),
            None if is_free => Some(behind),
            None => None,
        },
        None => Some(behind),
    }
}
