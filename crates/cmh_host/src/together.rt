//! Events of lines that are there already go to the station together, so that they share a sync.

ghost use Rattle.std.specs.Prelude.{◌≡◌, ◌≤◌, length, true, IfOk, IfErr, IfSome, OnErr, OnOk, flat_map};
ghost use Rattle.std.specs.Io.KnownBytes.{Appends};
ghost use Rattle.cmh_station.specs.Journaled.{batch_limit};
ghost use Rattle.cmh_talk.specs.Together.{AreTaken, FirstRefused, WereAnswered, answer_text, reply_of};

use crate::starting::{FileStation, note_seal, step};
use cmh_carriers::Speaker;
use cmh_console::{Output, WriteFault};
use cmh_frames::{Done, Event, Outcome};
use cmh_station::StationRefusal;
use cmh_talk::SiteReply;
use std::io::Write;
use std::sync::Wait;

/// What a station answers to an event.
pub type Answer = Result<Outcome, StationRefusal>;

/// Gives events to a station and writes a reply to each, in their order. They share a sync as far as they can; the replies
/// are not flushed.
pub fn answer_events<R: Wait + Drop, W: Write>(
    rt: &R,
    station: &FileStation<R>,
    speaker: Option<&Speaker>,
    events: &[Event],
    out: &mut Output<W>,
) -> Result<(), WriteFault>
    requires { length events.now ≤ batch_limit }
    ensures answered { OnOk result (WereAnswered events.now out.old.written out.new.written) }
    ensures fault { OnErr result (out.new.has_failed ≡ true) }
{
    let mut rest = events;
    while !rest.is_empty() {
        match take_together(rt, station, speaker, rest) {
            Ok(answers) => {
                write_all(&answers, out)?;
                return Ok(());
            }
            Err(refused) => {
                let (first, behind) = rest.split_at(1);
                let reply = match refused {
                    Some(refusal) => SiteReply::Refused(refusal),
                    None => step(rt, station, speaker, &first[0]),
                };
                out.write_text(&reply)?;
                rest = behind;
            }
        }
    }
    Ok(())
}

/// Gives events to a station, and wakes the threads that write what they sent once the lock is given back. Else the first
/// of them has its own refusal, or has to be given alone.
fn take_together<R: Wait + Drop>(
    rt: &R,
    station: &FileStation<R>,
    speaker: Option<&Speaker>,
    events: &[Event],
) -> Result<Vec<Answer>, Option<StationRefusal>>
    requires { length events.now ≤ batch_limit }
    ensures taken { IfOk result (λ answers. AreTaken events.now answers.items) }
    ensures first { IfErr result (λ refused. IfSome refused (FirstRefused events.now)) }
{
    if events.len() < 2 {
        return Err(None);
    }
    match station.step_from_first(rt, events) {
        Ok(answers) => Ok(answers),
        Err(StationRefusal::Disk) => {
            note_seal(rt, speaker, StationRefusal::Disk);
            Err(Some(StationRefusal::Disk))
        }
        Err(_) => Err(None),
    }
}

fn write_all<W: Write>(answers: &[Answer], out: &mut Output<W>) -> Result<(), WriteFault>
    ensures wrote { OnOk result (Appends out.old.written out.new.written
        (flat_map answer_text answers.now)) }
    ensures fault { OnErr result (out.new.has_failed ≡ true) }
{
    for answer in answers {
        out.write_text(&reply_to(answer))?;
    }
    Ok(())
}

/// What is answered for what a station answered.
pub fn reply_to(answer: &Answer) -> SiteReply
    ensures { result ≡ reply_of answer.now }
{
    match answer {
        Ok(outcome) => SiteReply::Taken(Done {
            sent: outcome.sent.as_slice().len(),
            declared: outcome.declared,
        }),
        Err(refusal) => SiteReply::Refused(*refusal),
    }
}
