//! The rows that are given for a topology, and what can be wrong with them.

ghost use Rattle.std.specs.Prelude.{◌≡◌, ◌==◌, ℕ, false, IfErr, IfOk, length, map, nat_lt, None};
ghost use Rattle.std.specs.List.{list_any, sum_by};
ghost use Rattle.cmh_bits.specs.Bits as bits;
ghost use Rattle.cmh_frames.specs.Edition.{process_limit};
ghost use Rattle.cmh_frames.specs.Rows as spec;
ghost use Rattle.cmh_frames.specs.Rows.{all_members, fault_of, repeats, IsFaultOf, Row};
ghost use Rattle.cmh_frames.specs.Inner.Twice.{repeats_process as names_again};
ghost use Rattle.cmh_frames.specs.Inner.Kept.{is_bad as is_no_number, members_in};

use crate::edition::Edition;
use cmh_bits::{has_number, insert_number};
use cmh_runs::is_number;
use std::marker::Model;
use thiserror::Error;

/// How many words have a bit for each of the 65,536 numbers that a row can give. They lie on the stack: 8 KB.
const WORDS: usize = 1024;

/// A site and its processes, as they are given: any numbers, in any order.
#[derive(Drop)]
pub struct SiteRow {
    pub site: u16,
    pub processes: Vec<u16>,
}

impl Model for SiteRow {
    ghost use Rattle.std.specs.Prelude.{ℕ, List};

    ghost Value = { ℕ × List ℕ };

    ghost view = { λ r. (r.site, r.processes.items) };
}

/// Why rows are no topology. The first that holds over all rows is given.
#[derive(Clone, Copy, Debug, PartialEq, Eq, Error)]
pub enum TopologyFault {
    /// Too many sites, processes at one site, or processes in all. The rows' lengths count.
    #[error("too many sites or processes")]
    Limit,
    #[error("a site has two rows")]
    RepeatedSite,
    /// A process is named twice, in one row or in two.
    #[error("a process is named twice")]
    RepeatedProcess,
    #[error("a number is not from 1 to 9999")]
    BadNumber,
    #[error("out of memory")]
    Memory,
}

impl TopologyFault {
    /// The number that stands for the fault in texts, 1 to 5.
    pub const fn number(&self) -> u8
        ensures { result ≡ spec.fault_number self.now }
    {
        match self {
            TopologyFault::Limit => 1,
            TopologyFault::RepeatedSite => 2,
            TopologyFault::RepeatedProcess => 3,
            TopologyFault::BadNumber => 4,
            TopologyFault::Memory => 5,
        }
    }
}

/// The first fault of the rows, if there is one. Takes no memory.
pub(crate) fn check_rows(edition: Edition, rows: &[SiteRow]) -> Result<(), TopologyFault>
    ensures ok { IfOk result (λ _. fault_of edition rows.now ≡ None) }
    ensures fault { IfErr result (IsFaultOf edition rows.now) }
{
    if edition.site_limit() < rows.len()
        || has_large_site(edition.member_limit(), rows)
        || is_crowded(edition, rows)
    {
        return Err(TopologyFault::Limit);
    }
    if repeats_site(rows) {
        return Err(TopologyFault::RepeatedSite);
    }
    if repeats_process(rows) {
        return Err(TopologyFault::RepeatedProcess);
    }
    if has_bad_number(rows) {
        return Err(TopologyFault::BadNumber);
    }
    Ok(())
}

/// The processes that the site's row names.
pub(crate) fn processes_of(rows: &[SiteRow], site: u16) -> &[u16]
    ensures { result.now ≡ members_in rows.now site }
{
    for row in rows {
        if row.site == site {
            return &row.processes;
        }
    }
    &[]
}

fn has_large_site(limit: usize, rows: &[SiteRow]) -> bool
    ensures { result ≡ list_any (λ row. nat_lt limit (length row.1)) rows.now }
{
    for row in rows {
        if limit < row.processes.len() {
            return true;
        }
    }
    false
}

/// Whether there are too many processes in all. What is left of the limit is counted, so no sum can grow too large.
fn is_crowded(edition: Edition, rows: &[SiteRow]) -> bool
    ensures { result ≡ nat_lt (process_limit edition) (sum_by (λ row. length row.1) rows.now) }
{
    let mut left = edition.process_limit();
    for row in rows {
        if left < row.processes.len() {
            return true;
        }
        left -= row.processes.len();
    }
    false
}

fn repeats_site(rows: &[SiteRow]) -> bool
    ensures { result ≡ repeats (map (λ (row : Row). row.0) rows.now) }
{
    for (i, row) in rows.iter().enumerate() {
        if has_site(&rows[i + 1..], row.site) {
            return true;
        }
    }
    false
}

fn has_site(rows: &[SiteRow], site: u16) -> bool
    ensures { result ≡ list_any (λ q. q == site) (map (λ (row : Row). row.0) rows.now) }
{
    for row in rows {
        if row.site == site {
            return true;
        }
    }
    false
}

/// Whether a process is named twice.
fn repeats_process(rows: &[SiteRow]) -> bool
    ensures { result ≡ repeats (all_members rows.now) }
{
    let mut named = [0; WORDS];
    names_twice(rows, &mut named)
}

/// Whether the rows name a process twice. It goes from the last row and its last process to the first, and marks each
/// number that is named.
fn names_twice(rows: &[SiteRow], named: &mut [u64]) -> bool
    requires all { length named.old ≡ 1024 }
    requires unmarked { (p : ℕ) → bits.has_number named.old p ≡ false }
    ensures { result ≡ names_again rows.now }
{
    for later in 0..rows.len() {
        let row = &rows[rows.len() - 1 - later];
        for behind in 0..row.processes.len() {
            let process = row.processes[row.processes.len() - 1 - behind];
            let number = usize::from(process);
            if has_number(named, number) {
                return true;
            }
            insert_number(named, number);
        }
    }
    false
}

fn has_bad_number(rows: &[SiteRow]) -> bool
    ensures { result ≡ spec.has_bad_number rows.now }
{
    for row in rows {
        if is_bad(row.site) || any_bad(&row.processes) {
            return true;
        }
    }
    false
}

fn any_bad(numbers: &[u16]) -> bool
    ensures { result ≡ list_any is_no_number numbers.now }
{
    numbers.iter().any(|number| is_bad(*number))
}

fn is_bad(number: u16) -> bool
    ensures { result ≡ is_no_number number }
{
    !is_number(number)
}
