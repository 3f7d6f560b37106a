//! What a journal of edition 3 has of the links of its site.

ghost use Rattle.std.specs.Prelude.{◌≡◌, ◌≢◌, ◌<◌, ℕ, List, IfErr, IfOk, length};
ghost use Rattle.cmh_seat3.specs.Journals.{OfJournal};
ghost use Rattle.cmh_seat.specs.Fills.{Fills};
ghost use Rattle.cmh_c.specs.Inner.Faults.{code_of_call};
ghost use Rattle.cmh_c.specs.Links3.{AreGot, AreSent, IsNotGot, IsNotSent};

use crate::codes::{CallFault, DONE, SHORT};
use cmh_runs::SiteId;
use cmh_seat3::{Receipts, got, sent_past};
use cmh_wire3::Mark;
use std::alloc::Global;

/// Tells how many messages of a site the journal got, and their mark.
#[unsafe(no_mangle)]
pub extern "C" fn cmh_journal3_got(
    alloc: Global,
    journal: &[u8],
    from: u16,
    count: &mut u64,
    mark: &mut u64,
) -> u32
    ensures got { result ≡ 0 → OfJournal journal.now (AreGot from count.new mark.new) }
    ensures count { 0 < result → count.new ≡ count.old }
    ensures mark { 0 < result → mark.new ≡ mark.old }
    ensures code { 0 < result → IsNotGot result journal.now from }
{
    match got_from(alloc, journal, from) {
        Ok(receipts) => {
            *count = receipts.count;
            *mark = receipts.mark.get();
            DONE
        }
        Err(fault) => fault.code(),
    }
}

fn got_from(alloc: Global, journal: &[u8], from: u16) -> Result<Receipts, CallFault>
    ensures got { IfOk result (λ receipts. OfJournal journal.now (AreGot from receipts.count receipts.mark)) }
    ensures fault { IfErr result (λ fault. IsNotGot (code_of_call fault) journal.now from) }
{
    let Some(from) = SiteId::new(from) else {
        return Err(CallFault::Number);
    };
    match got(alloc, journal, from) {
        Ok(receipts) => Ok(receipts),
        Err(fault) => Err(CallFault::Restart(fault)),
    }
}

/// Writes the messages that the journal sends to a site past those that the site got, of which it tells how many they are
/// and their mark; and how many bytes there are, also where there is room for fewer.
#[unsafe(no_mangle)]
pub extern "C" fn cmh_journal3_sent(
    alloc: Global,
    journal: &[u8],
    to: u16,
    count: u64,
    mark: u64,
    out: &mut [u8],
    len: &mut usize,
) -> u32
    ensures sent { result ≡ 0 → (bytes : List ℕ) × OfJournal journal.now (AreSent to count mark bytes)
        × Fills bytes out.old out.new len.new }
    ensures out { 0 < result → out.new ≡ out.old }
    ensures short { result ≡ 21 → (bytes : List ℕ) × OfJournal journal.now (AreSent to count mark bytes)
        × (len.new ≡ length bytes) × (length out.old < length bytes) }
    ensures len { 0 < result → result ≢ 21 → len.new ≡ len.old }
    ensures code { 0 < result → result ≢ 21 → IsNotSent result journal.now to count mark }
{
    match sent_to(alloc, journal, to, count, mark) {
        Ok(bytes) => {
            *len = bytes.len();
            if out.len() < bytes.len() {
                return SHORT;
            }
            out[..bytes.len()].copy_from_slice(&bytes);
            DONE
        }
        Err(fault) => fault.code(),
    }
}

fn sent_to(
    alloc: Global,
    journal: &[u8],
    to: u16,
    count: u64,
    mark: u64,
) -> Result<Vec<u8>, CallFault>
    ensures sent { IfOk result (λ bytes. OfJournal journal.now (AreSent to count mark bytes.items)) }
    ensures fault { IfErr result (λ fault. IsNotSent (code_of_call fault) journal.now to count mark) }
    ensures fits { IfErr result (λ fault. code_of_call fault ≢ 21) }
{
    let Some(to) = SiteId::new(to) else {
        return Err(CallFault::Number);
    };
    let got = Receipts {
        count,
        mark: Mark::new(mark),
    };
    match sent_past(alloc, journal, to, got) {
        Ok(bytes) => Ok(bytes),
        Err(fault) => Err(CallFault::Restart(fault)),
    }
}
