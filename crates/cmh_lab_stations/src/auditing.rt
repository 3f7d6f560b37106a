//! Audits of what sinks hold.

use crate::answer::{Answer, Unanswered};
use crate::making::word;
use crate::object::{Objects, bytes, topology};
use crate::telling::put_lines;
use cmh_audit::{audit, check_set};
use cmh_console::Words;
use cmh_files::VerdictText;
use cmh_frames::Topology;
use cmh_journal::{StoredJournal, Tail, read_stored};
use std::alloc::Global;
use std::sync::Wait;

/// `audit TOPOLOGY NAME ..`: the tails that were cut off and the verdict on what the sinks of these stations hold; or
/// `journal fault` or `set fault` and its number.
pub fn audit_sinks<R: Wait + Copy + Drop>(
    alloc: Global,
    objects: &Objects<R>,
    words: &mut Words<'_>,
    answer: &mut Answer,
) -> Result<(), Unanswered> {
    let world = topology(objects, word(words)?)?;
    let mut journals = Vec::new(alloc);
    for _ in 0..u64::MAX {
        let Some(name) = words.next_word() else {
            break;
        };
        match read_stored(bytes(objects, name)?) {
            Ok((journal, tail)) => {
                if let Tail::Cut(count) = tail {
                    answer.word("cut")?;
                    answer.word(journal.site())?;
                    answer.word(count)?;
                    answer.word("/")?;
                }
                journals.push(journal)?;
            }
            Err(fault) => {
                answer.word("journal fault")?;
                return answer.word(fault.number());
            }
        }
    }
    put_verdict(alloc, world, &journals, answer)
}

fn put_verdict(
    alloc: Global,
    world: &Topology,
    journals: &[StoredJournal<'_>],
    answer: &mut Answer,
) -> Result<(), Unanswered> {
    if let Err(fault) = check_set(world, journals) {
        answer.word("set fault")?;
        return answer.word(fault.number());
    }
    let Ok(verdict) = audit(alloc, world, journals) else {
        return Err(Unanswered::OutOfMemory);
    };
    let text = VerdictText {
        edition: world.edition(),
        verdict: &verdict,
    };
    let mut lines = String::new(alloc);
    write!(lines, "{text}")?;
    answer.word("")?;
    put_lines(lines.as_str(), answer)
}
