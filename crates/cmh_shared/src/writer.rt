//! The writer's side of the two copies.

ghost use Rattle.std.specs.Option.{option_to_list};
ghost use Rattle.std.specs.Prelude.{◌≡◌, ◌<◌, ◌≤◌, ◌++◌, ◌^◌, [], All, None, drop, IfOk, OnOk, OnErr};
ghost use Rattle.std.specs.Vec.{vec_len, vec_capacity};
ghost use Rattle.left_right.specs.Sides.{view as seat_view};
ghost use Rattle.cmh_shared.specs.Boards.{final, state_of, IsEmptyFront};
ghost use Rattle.cmh_shared.specs.Rule.{named};

use crate::declared::Declared;
use crate::history::SeenHistory;
use crate::published::{Add, Published};
use crate::reader::BoardReader;
use crate::rule::{BoardRule, Known, Same, Sees, Takes};
use core::mem::replace_with;
use left_right::writer::Writer;
use std::alloc::{AllocError, Global};
use std::sync::Wait;

pub(crate) type PublishedWriter = Writer<Published, Add, Known, BoardRule>;

/// A writer of the empty list, which is all of the history, for so many readers.
pub fn open_writer(
    alloc: Global,
    seen: &SeenHistory,
    readers: usize,
) -> Result<PublishedWriter, AllocError>
    requires readers { (0 < readers) × (readers < 2 ^ 32) }
    requires empty { seen.now.log ≡ [] }
    ensures list { IfOk result (λ w. w.desk.shown.value.list ≡ []) }
    ensures seen { IfOk result (λ w. w.desk.shown.value.seen ≡ seen.now) }
    ensures pending { IfOk result (λ w. drop w.behind w.log.items ≡ []) }
{
    let first = Published {
        list: Declared::new(),
        seen: seen.again(),
    };
    let second = first.again();
    Writer::new(alloc, first, second, readers)
}

/// Publishes all that is pending. It may wait for a `read` that is under way.
pub fn publish_all<R: Wait>(rt: &R, writer: PublishedWriter) -> PublishedWriter
    requires book { (final writer.desk.shown.value (drop writer.behind writer.log.items)).1.book
        ≡ writer.desk.shown.value.seen.book }
    requires own { (final writer.desk.shown.value (drop writer.behind writer.log.items)).0
        ≡ (final writer.desk.shown.value (drop writer.behind writer.log.items)).1.log }
    ensures shown { state_of result.desk.shown.value ≡ final writer.desk.shown.value
        (drop writer.behind writer.log.items) }
    ensures pending { drop result.behind result.log.items ≡ [] }
    ensures seat { seat_view result.desk.place ≡ named result.desk.shown.value.seen.book }
{
    let (writer, done) = writer.publish_as::<Sees, R>(rt);
    let Ok(()) = done else {
        unreachable!();
    };
    writer
}

/// The same of a writer that stays where it is.
pub fn publish_in<R: Wait>(rt: &R, writer: &mut PublishedWriter)
    requires book { (final writer.old.desk.shown.value (drop writer.old.behind writer.old.log.items)).1.book
        ≡ writer.old.desk.shown.value.seen.book }
    requires own { (final writer.old.desk.shown.value (drop writer.old.behind writer.old.log.items)).0
        ≡ (final writer.old.desk.shown.value (drop writer.old.behind writer.old.log.items)).1.log }
    ensures shown { state_of writer.new.desk.shown.value ≡ final writer.old.desk.shown.value
        (drop writer.old.behind writer.old.log.items) }
    ensures pending { drop writer.new.behind writer.new.log.items ≡ [] }
    ensures seat { seat_view writer.new.desk.place ≡ named writer.new.desk.shown.value.seen.book }
{
    replace_with(writer, rt, |writer, rt| (publish_all(rt, writer), ()))
}

/// One more reader, which knows the writer's history and has read nothing.
fn one_reader(writer: &mut PublishedWriter, seen: &SeenHistory) -> Result<BoardReader, AllocError>
    requires { seat_view writer.old.desk.place ≡ named seen.now.book }
    ensures shown { writer.new.desk.shown ≡ writer.old.desk.shown }
    ensures log { (writer.new.log ≡ writer.old.log) × (writer.new.behind ≡ writer.old.behind) }
    ensures seat { seat_view writer.new.desk.place ≡ seat_view writer.old.desk.place }
    ensures ok { IfOk result (λ r. IsEmptyFront seen.now.book r) }
{
    let mut reader = writer.factory().reader()?;
    let note = writer.tell::<Same>();
    reader.learn::<Takes>(note);
    Ok(BoardReader {
        reader,
        count: 0,
        seen: seen.again(),
    })
}

/// So many readers more, into room that is there.
pub fn add_readers(
    writer: &mut PublishedWriter,
    seen: &SeenHistory,
    count: usize,
    readers: &mut Vec<BoardReader>,
) -> Result<(), AllocError>
    requires seat { seat_view writer.old.desk.place ≡ named seen.now.book }
    requires room { (readers.old.items ≡ []) × (count ≤ vec_capacity readers.old) }
    ensures shown { writer.new.desk.shown ≡ writer.old.desk.shown }
    ensures log { (writer.new.log ≡ writer.old.log) × (writer.new.behind ≡ writer.old.behind) }
    ensures seat { seat_view writer.new.desk.place ≡ seat_view writer.old.desk.place }
    ensures count { OnOk result (vec_len readers.new ≡ count) }
    ensures all { OnOk result (All (λ r. IsEmptyFront seen.now.book r) readers.new.items) }
{
    for _ in 0..count {
        match one_reader(writer, seen) {
            Ok(reader) => readers.push_reserved(reader),
            Err(_) => return Err(AllocError),
        }
    }
    Ok(())
}

/// Gives the writer the operation for which there was no memory before.
pub fn unstick(writer: &mut PublishedWriter, stuck: &mut Option<Add>) -> Result<(), AllocError>
    ensures desk { writer.new.desk ≡ writer.old.desk }
    ensures ok { OnOk result ((stuck.new ≡ None) ×
        (drop writer.new.behind writer.new.log.items ≡ drop writer.old.behind writer.old.log.items
        ++ option_to_list stuck.old)) }
    ensures err { OnErr result ((stuck.new ≡ stuck.old) ×
        (drop writer.new.behind writer.new.log.items ≡ drop writer.old.behind writer.old.log.items)) }
{
    match stuck.take() {
        None => Ok(()),
        Some(add) => match writer.append(add) {
            Ok(()) => Ok(()),
            Err(add) => {
                *stuck = Some(add);
                Err(AllocError)
            }
        },
    }
}
