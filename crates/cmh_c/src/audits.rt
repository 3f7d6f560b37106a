//! Audits.

ghost use Rattle.std.specs.Prelude.{◌≡◌, ◌≢◌, ◌<◌, ℕ, List, [], ◌∷◌, ◌++◌, IfErr, IfOk, length, map, string_bytes};
ghost use Rattle.std.specs.List.{concat};
ghost use Rattle.cmh_console.specs.Faults.{fault_text};
ghost use Rattle.cmh_seat.specs.Fills.{Fills};
ghost use Rattle.cmh_c.specs.Auditing.{AreNoFiles, Says};
ghost use Rattle.cmh_c.specs.Inner.Faults.{code_of_call};

use crate::codes::{CallFault, DONE, SHORT};
use cmh_console::Fault;
use cmh_files::{AuditFault, audit_files};
use std::alloc::{AllocError, Global};
use std::fmt;

/// What an audit tells: its lines, and the status with which `cmh audit` ends.
#[derive(Drop)]
struct AuditAnswer {
    text: String,
    status: u8,
}

/// Writes what `cmh audit` prints of these files to `out`, how long it is, and the status. The files stand one after the
/// other, and each has the length that is told.
#[unsafe(no_mangle)]
pub extern "C" fn cmh_audit(
    alloc: Global,
    world: &[u8],
    files: &[u8],
    lens: &[usize],
    out: &mut [u8],
    count: &mut usize,
    status: &mut u8,
) -> u32
    ensures told { result ≡ 0 → ((text : List ℕ) × Says world.now files.now lens.now text status.new
        × Fills text out.old out.new count.new) }
    ensures out { 0 < result → out.new ≡ out.old }
    ensures status { 0 < result → status.new ≡ status.old }
    ensures short { result ≡ 21 → ((text : List ℕ) × (told : ℕ) × Says world.now files.now lens.now text told
        × (length out.old < length text) × (count.new ≡ length text)) }
    ensures count { 0 < result → result ≢ 21 → count.new ≡ count.old }
    ensures code { 0 < result → result ≢ 21 → AreNoFiles result files.now lens.now }
{
    match audited_of(alloc, world, files, lens) {
        Ok(told) => {
            let text = told.text.as_bytes();
            *count = text.len();
            if out.len() < text.len() {
                return SHORT;
            }
            out[..text.len()].copy_from_slice(text);
            *status = told.status;
            DONE
        }
        Err(fault) => fault.code(),
    }
}

fn audited_of(
    alloc: Global,
    world: &[u8],
    files: &[u8],
    lens: &[usize],
) -> Result<AuditAnswer, CallFault>
    ensures told { IfOk result (λ told. Says world.now files.now lens.now (string_bytes told.text) told.status) }
    ensures fault { IfErr result (λ fault. AreNoFiles (code_of_call fault) files.now lens.now) }
{
    let files = split(alloc, files, lens)?;
    match audit_files(alloc, world, &files) {
        Ok(audited) => Ok(AuditAnswer {
            text: audited.text(alloc)?,
            status: audited.status(),
        }),
        Err(AuditFault::Memory) => Err(CallFault::Memory),
        Err(fault) => Ok(AuditAnswer {
            text: line_of(alloc, Fault::from(fault))?,
            status: 3,
        }),
    }
}

/// The files, of which each has the length that is told, one after the other.
fn split(alloc: Global, files: &[u8], lens: &[usize]) -> Result<Vec<Vec<u8>>, CallFault>
    ensures bytes { IfOk result (λ split. files.now ≡ concat (map (λ file. file.items) split.items)) }
    ensures lens { IfOk result (λ split. lens.now ≡ map length (map (λ file. file.items) split.items)) }
    ensures fault { IfErr result (λ fault. AreNoFiles (code_of_call fault) files.now lens.now) }
{
    let mut split = Vec::new(alloc);
    let mut rest = files;
    for len in lens {
        if rest.len() < *len {
            return Err(CallFault::Files);
        }
        let (file, after) = rest.split_at(*len);
        split.push(file.to_vec(alloc)?)?;
        rest = after;
    }
    if rest.is_empty() {
        Ok(split)
    } else {
        Err(CallFault::Files)
    }
}

/// The line of a fault.
fn line_of(alloc: Global, fault: Fault) -> Result<String, AllocError>
    ensures { IfOk result (λ text. string_bytes text ≡ fault_text fault ++ 10 ∷ []) }
{
    let mut text = String::new(alloc);
    write!(text, "{fault}\n")?;
    Ok(text)
}
