//! What calls of stations answer.

use crate::answer::{Answer, Unanswered};
use crate::reading::number;
use cmh_console::Words;
use cmh_controller::Refusal;
use cmh_files::EntryText;
use cmh_frames::{Entry, Frame, Outcome, ProcId, SiteId};
use cmh_station::StationRefusal;

/// `refused` and the number.
pub fn put_refusal(refusal: StationRefusal, answer: &mut Answer) -> Result<(), Unanswered> {
    answer.word("refused")?;
    answer.word(refusal.number())?;
    match refusal {
        StationRefusal::Rule(Refusal::Memory) => Err(Unanswered::OutOfMemory),
        StationRefusal::Rule(_)
        | StationRefusal::Sealed
        | StationRefusal::Disk
        | StationRefusal::Full => Ok(()),
    }
}

fn put_sent(sent: &[(SiteId, Frame)], answer: &mut Answer) -> Result<(), Unanswered> {
    for (to, frame) in sent {
        answer.word("sent")?;
        answer.word(*frame)?;
        answer.word("to")?;
        answer.word(*to)?;
    }
    Ok(())
}

/// `ok`, the frames that were sent and the process that was declared; or the refusal.
pub fn put_step(
    step: &Result<Outcome, StationRefusal>,
    answer: &mut Answer,
) -> Result<(), Unanswered> {
    match step {
        Ok(outcome) => {
            answer.word("ok")?;
            put_sent(outcome.sent.as_slice(), answer)?;
            if let Some(process) = outcome.declared {
                answer.word("declared")?;
                answer.word(process)?;
            }
            Ok(())
        }
        Err(refusal) => put_refusal(*refusal, answer),
    }
}

/// The answers to many events, with a stroke between two; or `all refused` and the number.
pub fn put_steps(
    steps: &Result<Vec<Result<Outcome, StationRefusal>>, StationRefusal>,
    answer: &mut Answer,
) -> Result<(), Unanswered> {
    match steps {
        Ok(answers) => {
            for (i, step) in answers.iter().enumerate() {
                if i > 0 {
                    answer.word("/")?;
                }
                put_step(step, answer)?;
            }
            Ok(())
        }
        Err(refusal) => {
            answer.word("all")?;
            put_refusal(*refusal, answer)
        }
    }
}

/// The entries of a journal, with a stroke between two, or `none`.
pub fn put_entries(entries: &[Entry], answer: &mut Answer) -> Result<(), Unanswered> {
    if entries.is_empty() {
        return answer.word("none");
    }
    for (i, entry) in entries.iter().enumerate() {
        if i > 0 {
            answer.word("/")?;
        }
        answer.word(EntryText { entry })?;
    }
    Ok(())
}

/// Processes, or `none`.
pub fn put_processes(processes: &[ProcId], answer: &mut Answer) -> Result<(), Unanswered> {
    if processes.is_empty() {
        return answer.word("none");
    }
    for process in processes {
        answer.word(*process)?;
    }
    Ok(())
}

/// Lines as one, with a stroke between two.
pub fn put_lines(lines: &str, answer: &mut Answer) -> Result<(), Unanswered> {
    let mut ended = false;
    for byte in lines.as_bytes() {
        if ended {
            answer.put(" / ")?;
        }
        ended = *byte == b'\n';
        if !ended {
            answer.put(char::from(*byte))?;
        }
    }
    Ok(())
}

/// `refusal NUMBER`: its number and its text.
pub fn tell_refusal(words: &mut Words<'_>, answer: &mut Answer) -> Result<(), Unanswered> {
    let refusal = refusal_of(number(words)?)?;
    answer.word(refusal.number())?;
    answer.word(refusal)
}

/// The refusal of a number.
pub fn refusal_of(number: u64) -> Result<StationRefusal, Unanswered> {
    Ok(match number {
        1 => StationRefusal::Rule(Refusal::UnknownProcess),
        2 => StationRefusal::Rule(Refusal::NotHere),
        3 => StationRefusal::Rule(Refusal::BadTargets),
        4 => StationRefusal::Rule(Refusal::Blocked),
        5 => StationRefusal::Rule(Refusal::NotBlocked),
        6 => StationRefusal::Rule(Refusal::NotOwed),
        7 => StationRefusal::Rule(Refusal::AlreadyDeclared),
        8 => StationRefusal::Rule(Refusal::Unlawful),
        9 => StationRefusal::Sealed,
        10 => StationRefusal::Disk,
        11 => StationRefusal::Rule(Refusal::Memory),
        12 => StationRefusal::Full,
        _ => return Err(Unanswered::BadLine),
    })
}
