//! What can be wrong with the rows that are given for a topology.

ghost use Rattle.std.specs.Prelude.{◌≡◌, ◌==◌, ℕ, false, IfErr, IfOk, length, map, nat_lt, None};
ghost use Rattle.std.specs.List.{list_any, sum_by};
ghost use Rattle.cmh_bits.specs.Bits as bits;
ghost use Rattle.cmh_frames.specs.Inner.Kept.{is_bad as is_no_number, members_in};
ghost use Rattle.cmh_frames.specs.Inner.Twice.{repeats_process as names_again};
ghost use Rattle.cmh_frames.specs.Rows as spec;
ghost use Rattle.cmh_frames.specs.Rows.{all_members, repeats, Row};
ghost use Rattle.cmh_topology3.specs.Limits as limits;
ghost use Rattle.cmh_topology3.specs.Rows.{fault_of, IsFaultOf};

use cmh_bits::{has_number, insert_number};
use cmh_frames::{SiteRow, TopologyFault};
use cmh_runs::is_number;

/// How many sites a world may have.
const MOST_SITES: usize = 64;

/// How many processes a site may have.
const MOST_MEMBERS: usize = 256;

/// How many processes a world may have.
const MOST_PROCESSES: usize = 4096;

/// How many words have a bit for each of the 65,536 numbers that a row can give. They lie on the stack: 8 KB.
const WORDS: usize = 1024;

/// The first fault of the rows, if there is one. Takes no memory.
pub fn check_rows(rows: &[SiteRow]) -> Result<(), TopologyFault>
    ensures ok { IfOk result (λ _. fault_of rows.now ≡ None) }
    ensures fault { IfErr result (IsFaultOf rows.now) }
{
    if MOST_SITES < rows.len() || has_large_site(rows) || is_crowded(rows) {
        return Err(TopologyFault::Limit);
    }
    if repeats_site(rows) {
        return Err(TopologyFault::RepeatedSite);
    }
    if repeats_process(rows) {
        return Err(TopologyFault::RepeatedProcess);
    }
    if has_bad_number(rows) {
        return Err(TopologyFault::BadNumber);
    }
    Ok(())
}

/// The processes that the site's row names.
pub fn processes_of(rows: &[SiteRow], site: u16) -> &[u16]
    ensures { result.now ≡ members_in rows.now site }
{
    for row in rows {
        if row.site == site {
            return &row.processes;
        }
    }
    &[]
}

fn has_large_site(rows: &[SiteRow]) -> bool
    ensures { result ≡ list_any (λ row. nat_lt limits.most_members (length row.1)) rows.now }
{
    for row in rows {
        if MOST_MEMBERS < row.processes.len() {
            return true;
        }
    }
    false
}

/// Whether there are too many processes in all. What is left of the limit is counted, so no sum can grow too large.
fn is_crowded(rows: &[SiteRow]) -> bool
    ensures { result ≡ nat_lt limits.most_processes (sum_by (λ row. length row.1) rows.now) }
{
    let mut left = MOST_PROCESSES;
    for row in rows {
        if left < row.processes.len() {
            return true;
        }
        left -= row.processes.len();
    }
    false
}

fn repeats_site(rows: &[SiteRow]) -> bool
    ensures { result ≡ repeats (map (λ (row : Row). row.0) rows.now) }
{
    for (i, row) in rows.iter().enumerate() {
        if has_site(&rows[i + 1..], row.site) {
            return true;
        }
    }
    false
}

fn has_site(rows: &[SiteRow], site: u16) -> bool
    ensures { result ≡ list_any (λ q. q == site) (map (λ (row : Row). row.0) rows.now) }
{
    for row in rows {
        if row.site == site {
            return true;
        }
    }
    false
}

/// Whether a process is named twice.
fn repeats_process(rows: &[SiteRow]) -> bool
    ensures { result ≡ repeats (all_members rows.now) }
{
    let mut named = [0; WORDS];
    names_twice(rows, &mut named)
}

/// Whether the rows name a process twice. It goes from the last row and its last process to the first, and marks each
/// number that is named.
fn names_twice(rows: &[SiteRow], named: &mut [u64]) -> bool
    requires all { length named.old ≡ 1024 }
    requires unmarked { (p : ℕ) → bits.has_number named.old p ≡ false }
    ensures { result ≡ names_again rows.now }
{
    for later in 0..rows.len() {
        let row = &rows[rows.len() - 1 - later];
        for behind in 0..row.processes.len() {
            let process = row.processes[row.processes.len() - 1 - behind];
            let number = usize::from(process);
            if has_number(named, number) {
                return true;
            }
            insert_number(named, number);
        }
    }
    false
}

fn has_bad_number(rows: &[SiteRow]) -> bool
    ensures { result ≡ spec.has_bad_number rows.now }
{
    for row in rows {
        if is_bad(row.site) || any_bad(&row.processes) {
            return true;
        }
    }
    false
}

fn any_bad(numbers: &[u16]) -> bool
    ensures { result ≡ list_any is_no_number numbers.now }
{
    numbers.iter().any(|number| is_bad(*number))
}

fn is_bad(number: u16) -> bool
    ensures { result ≡ is_no_number number }
{
    !is_number(number)
}
