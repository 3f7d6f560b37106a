//! How replies are written.

ghost use Rattle.std.specs.Prelude.{◌≡◌, ◌+◌, ◌≤◌, [], ◌++◌, true, codes, length, OnOk, OnErr};
ghost use Rattle.std.specs.Fmt.{decimal};
ghost use Rattle.std.specs.Io.KnownBytes.{Appends};
ghost use Rattle.cmh_play.specs.Replies.{reply_text};
ghost use Rattle.cmh_frames.specs.Texts.{declared_text};

use crate::reply::Reply;
use cmh_console::{Output, WriteFault};
use cmh_frames::{Done, Frame, Probe, ProcId, Reply as Grant, Request};
use cmh_text::ShortText;
use std::io::Write;

/// Writes a reply. One that is frequent is put together from its end, which takes less time than to format it.
#[inline(always)]
pub fn write_reply<W: Write>(out: &mut Output<W>, reply: &Reply) -> Result<(), WriteFault>
    ensures bytes { OnOk result (Appends out.old.written out.new.written (reply_text reply.now)) }
    ensures ok { OnOk result (out.new.has_failed ≡ out.old.has_failed) }
    ensures err { OnErr result (out.new.has_failed ≡ true) }
{
    let mut text = ShortText::new();
    match reply {
        Reply::Taken(done) => put_taken(&mut text, done),
        Reply::Got(frame, done) => put_got(&mut text, frame, done),
        _ => return out.write_text(reply),
    }
    out.write_bytes(text.as_slice())
}

/// The text of a step that was taken.
#[inline(always)]
fn put_taken(text: &mut ShortText, done: &Done)
    requires { text.old ≡ [] }
    ensures { text.new ≡ reply_text (Reply.Taken done.now) }
{
    put_done(text, done);
    text.put(b"ok sent ");
}

/// The text of a frame that was handed over.
#[inline(always)]
fn put_got(text: &mut ShortText, frame: &Frame, done: &Done)
    requires { text.old ≡ [] }
    ensures { text.new ≡ reply_text (Reply.Got frame.now done.now) }
{
    put_done(text, done);
    text.put(b" sent ");
    match frame {
        Frame::Request(Request { asker, holder }) => {
            put_pair(text, *asker, *holder);
            text.put(b"got request ");
        }
        Frame::Reply(Grant { holder, asker }) => {
            put_pair(text, *holder, *asker);
            text.put(b"got reply ");
        }
        Frame::Probe(Probe { origin, from, to }) => {
            put_pair(text, *from, *to);
            text.put(b" ");
            text.put_process(*origin);
            text.put(b"got probe ");
        }
    }
}

/// How many frames a step sent, and whom it declared, up to the end of the line.
#[inline(always)]
fn put_done(text: &mut ShortText, done: &Done)
    requires { text.old ≡ [] }
    ensures text { text.new ≡ decimal done.now.sent ++ declared_text done.now.declared ++ codes "\n" }
    ensures len { length text.new ≤ 35 }
{
    text.put(b"\n");
    put_declared(text, done.declared);
    text.put_number(done.sent as u64);
}

/// The process that a step declared, if it declared one.
#[inline(always)]
fn put_declared(text: &mut ShortText, declared: Option<ProcId>)
    requires { length text.old ≤ 1 }
    ensures text { text.new ≡ declared_text declared ++ text.old }
    ensures len { length text.new ≤ 14 + length text.old }
{
    if let Some(process) = declared {
        text.put_process(process);
        text.put(b" declared ");
    }
}

/// Two processes with a space between them.
#[inline(always)]
fn put_pair(text: &mut ShortText, first: ProcId, second: ProcId)
    requires { length text.old ≤ 41 }
    ensures text { text.new ≡ decimal first ++ codes " " ++ decimal second ++ text.old }
    ensures len { length text.new ≤ 9 + length text.old }
{
    text.put_process(second);
    text.put(b" ");
    text.put_process(first);
}
