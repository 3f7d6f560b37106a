//! Whether the bases of a site say what its own entries come to beside its state: the counts, the marks and the kept messages
//! of its links, and the stops of its declarations. What is under way, the chain of epochs compares.

use cmh_model3::{Event, Message, SiteId, Stamp};
use cmh_segment3::{Base, LinkState, Segment, Stamped};
use cmh_wire3::{Epoch, Mark, encode};
use std::alloc::{AllocError, Global};
use std::fmt::Write;

/// How many processes there can be, by their numbers.
const NUMBERS: usize = 65_536;

/// A base that does not say what the entries before it come to.
#[derive(Clone, Copy)]
pub struct Flaw {
    /// That with which it begins.
    pub epoch: Epoch,
    /// The link of which it says something else. From its site to itself where it says another stop of a declaration.
    pub from: SiteId,
    pub to: SiteId,
}

/// Notes the first flaw of the bases of a journal, if there is one.
pub fn note_flaw(
    alloc: Global,
    flaws: &mut Vec<Flaw>,
    segments: &[Segment],
) -> Result<(), AllocError> {
    if let Some(flaw) = flaw_in(alloc, segments)? {
        flaws.push(flaw)?;
    }
    Ok(())
}

/// The first flaw in the bases of a journal, if there is one. The base of the first of these segments is taken as it is.
fn flaw_in(alloc: Global, segments: &[Segment]) -> Result<Option<Flaw>, AllocError> {
    let Some((first, later)) = segments.split_first() else {
        return Ok(None);
    };
    let mut stops = Stops::new(alloc)?;
    stops.note_rows(first.base.declared.as_slice());
    let mut front = first;
    for next in later {
        stops.note_entries(front);
        if let Some(flaw) = flaw_of(alloc, &stops, front, next)? {
            return Ok(Some(flaw));
        }
        front = next;
    }
    Ok(None)
}

/// What the next base of a site says something else of.
fn flaw_of(
    alloc: Global,
    stops: &Stops,
    front: &Segment,
    next: &Segment,
) -> Result<Option<Flaw>, AllocError> {
    let flaw = wrong_link(alloc, front, next)?;
    if flaw.is_some() || stops.are_said(&next.base) {
        return Ok(flaw);
    }
    Ok(Some(Flaw {
        epoch: next.header.epoch,
        from: next.header.site,
        to: next.header.site,
    }))
}

/// The least epoch of these flaws.
pub fn first_flawed(flaws: &[Flaw]) -> Option<Epoch> {
    let mut least: Option<Epoch> = None;
    for flaw in flaws {
        least = match least {
            Some(epoch) if epoch <= flaw.epoch => Some(epoch),
            _ => Some(flaw.epoch),
        };
    }
    least
}

/// The lines of the flaws in this epoch.
pub fn flaw_lines(alloc: Global, flaws: &[Flaw], epoch: Epoch) -> Result<String, AllocError> {
    let mut text = String::new(alloc);
    for flaw in flaws {
        if flaw.epoch == epoch {
            write_flaw(&mut text, flaw)?;
        }
    }
    Ok(text)
}

fn write_flaw(text: &mut String, flaw: &Flaw) -> Result<(), AllocError> {
    let (from, to) = (flaw.from, flaw.to);
    if from == to {
        write!(text, "base {from}\n")
    } else {
        write!(text, "link {from} {to}\n")
    }
}

// ---- declarations

/// The newest stop of each process that was declared, by the number of the process.
#[derive(Drop)]
struct Stops {
    stops: Vec<Option<Stamp>>,
}

impl Stops {
    fn new(alloc: Global) -> Result<Stops, AllocError> {
        Ok(Stops {
            stops: Vec::from_elem(alloc, None, NUMBERS)?,
        })
    }

    fn note_rows(&mut self, rows: &[Stamped]) {
        for row in rows {
            self.note(*row);
        }
    }

    fn note_entries(&mut self, segment: &Segment) {
        for entry in segment.entries.as_slice() {
            if let Some(declaration) = &entry.declared {
                self.note(Stamped {
                    process: declaration.process,
                    stamp: declaration.stamp,
                });
            }
        }
    }

    fn note(&mut self, row: Stamped) {
        if let Some(place) = self.stops.get_mut(row.process.get() as usize) {
            *place = Some(row.stamp);
        }
    }

    /// Whether a base says these stops of those that it has as declared.
    fn are_said(&self, base: &Base) -> bool {
        base.declared.as_slice().iter().all(|row| {
            match self.stops.get(row.process.get() as usize) {
                Some(Some(stop)) => *stop == row.stamp,
                _ => false,
            }
        })
    }
}

// ---- links

/// The first link of which the next base of a site says something else than the entries of the segment before it.
fn wrong_link(alloc: Global, front: &Segment, next: &Segment) -> Result<Option<Flaw>, AllocError> {
    let mut walks = Walks::new(alloc);
    for row in front.base.links.as_slice() {
        walks.begin(row.site, front, next)?;
    }
    for row in next.base.links.as_slice() {
        walks.begin(row.site, front, next)?;
    }
    for entry in front.entries.as_slice() {
        if let Event::Got { from, clock, frame } = &entry.event {
            let message = Message {
                clock: *clock,
                frame: *frame,
            };
            walks.begin(*from, front, next)?;
            walks.got(*from, &message);
        }
        for (to, message) in entry.sent.as_slice() {
            walks.begin(*to, front, next)?;
            walks.sent(*to, next, message);
        }
    }
    Ok(walks.wrong(next))
}

/// The links of a site, while its entries are gone through.
#[derive(Drop)]
struct Walks {
    walks: Vec<LinkWalk>,
}

impl Walks {
    fn new(alloc: Global) -> Walks {
        Walks {
            walks: Vec::new(alloc),
        }
    }

    /// The links with another site are among them from now on.
    fn begin(&mut self, site: SiteId, front: &Segment, next: &Segment) -> Result<(), AllocError> {
        if self.walks.iter().any(|walk| walk.site == site) {
            return Ok(());
        }
        self.walks.push(begun(site, front, next))?;
        Ok(())
    }

    fn sent(&mut self, to: SiteId, next: &Segment, message: &Message) {
        let kept = kept_in(row_for(&next.base, to));
        for walk in self.walks.iter_mut() {
            if walk.site == to {
                walk.sent(kept, message);
            }
        }
    }

    fn got(&mut self, from: SiteId, message: &Message) {
        for walk in self.walks.iter_mut() {
            if walk.site == from {
                walk.got(message);
            }
        }
    }

    /// The first link that is not as the next base says.
    fn wrong(&self, next: &Segment) -> Option<Flaw> {
        let epoch = next.header.epoch;
        let site = next.header.site;
        for walk in self.walks.iter() {
            let row = row_for(&next.base, walk.site);
            if !walk.is_sent_said(row) {
                return Some(Flaw {
                    epoch,
                    from: site,
                    to: walk.site,
                });
            }
            if !walk.is_got_said(row) {
                return Some(Flaw {
                    epoch,
                    from: walk.site,
                    to: site,
                });
            }
        }
        None
    }
}

/// What a base says of the links with a site.
fn row_for(base: &Base, site: SiteId) -> Option<&LinkState> {
    for row in base.links.as_slice() {
        if row.site == site {
            return Some(row);
        }
    }
    None
}

/// The links with another site.
#[derive(Clone, Copy)]
struct LinkWalk {
    site: SiteId,
    /// Of how many messages more than before it is known by the next base that they came.
    came: u64,
    /// How many messages were kept before or sent since.
    sent: u64,
    /// The mark of those that came.
    mark: Mark,
    /// The others so far are those that the next base keeps.
    is_kept: bool,
    got: u64,
    got_mark: Mark,
}

/// The links with a site, from what the base before says to the next one. Where a base says nothing of the site, nothing was
/// sent to it and nothing got from it.
fn begun(site: SiteId, front: &Segment, next: &Segment) -> LinkWalk {
    let before = row_for(&front.base, site);
    let row = row_for(&next.base, site);
    let (acked, said) = (acked_in(before), acked_in(row));
    let mut walk = LinkWalk {
        site,
        came: said.saturating_sub(acked),
        sent: 0,
        mark: mark_in(before),
        is_kept: acked <= said,
        got: got_in(before),
        got_mark: got_mark_in(before),
    };
    let kept = kept_in(row);
    for message in kept_in(before) {
        walk.sent(kept, message);
    }
    walk
}

impl LinkWalk {
    /// A message more that was sent. The next base keeps these.
    fn sent(&mut self, kept: &[Message], message: &Message) {
        if self.sent < self.came {
            self.mark = self.mark.on(encode(message).as_slice());
        } else {
            let place = (self.sent - self.came) as usize;
            self.is_kept = self.is_kept && is_at(kept, place, message);
        }
        self.sent = self.sent.saturating_add(1);
    }

    fn got(&mut self, message: &Message) {
        self.got = self.got.saturating_add(1);
        self.got_mark = self.got_mark.on(encode(message).as_slice());
    }

    fn is_sent_said(&self, row: Option<&LinkState>) -> bool {
        self.is_kept
            && self.sent == self.came.saturating_add(kept_in(row).len() as u64)
            && self.mark == mark_in(row)
    }

    fn is_got_said(&self, row: Option<&LinkState>) -> bool {
        self.got == got_in(row) && self.got_mark == got_mark_in(row)
    }
}

fn is_at(messages: &[Message], place: usize, message: &Message) -> bool {
    match messages.get(place) {
        Some(kept) => *kept == *message,
        None => false,
    }
}

fn acked_in(row: Option<&LinkState>) -> u64 {
    match row {
        Some(row) => row.out.acked,
        None => 0,
    }
}

fn mark_in(row: Option<&LinkState>) -> Mark {
    match row {
        Some(row) => row.out.mark,
        None => Mark::first(),
    }
}

fn kept_in(row: Option<&LinkState>) -> &[Message] {
    match row {
        Some(row) => row.out.kept.as_slice(),
        None => &[],
    }
}

fn got_in(row: Option<&LinkState>) -> u64 {
    match row {
        Some(row) => row.into.got,
        None => 0,
    }
}

fn got_mark_in(row: Option<&LinkState>) -> Mark {
    match row {
        Some(row) => row.into.mark,
        None => Mark::first(),
    }
}
