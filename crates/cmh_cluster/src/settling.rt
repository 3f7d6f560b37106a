//! Whether all frames that running sites sent have come.

ghost use Rattle.std.specs.Prelude.{◌≡◌, ◌≢◌, ◌↔◌, ◌+◌, ◌-◌, ◌^◌, ◌*◌, ◌<◌, ◌≤◌, ℕ, List, IfOk, IfSome, IsTrue, MatchOption, drop, length, map, min, slice_get, sum_by, true, false, ⊤};
ghost use Rattle.std.specs.Duration.{as_nanos};
ghost use Rattle.cmh_frames.specs.Journals.{frame_from, frames_to, receipts_of, sendings_of};
ghost use Rattle.cmh_cluster.specs.Settling.{AtEach, CountsReceipts, CountsSendings, IsNewTally, no_receipts, no_sendings, received_at, receipts_of_all, sent_at};

use cmh_frames::{Entry, Event, Frame, SiteId};
use std::alloc::{AllocError, Global};
use std::rt::Clock;
use std::time::Duration;

/// How long no frame comes before no more are waited for.
const MOST_SILENT_SECONDS: u64 = 10;

/// The frames that came on a link, by the first entries of the receiver's journal. The count stops at its greatest number.
#[derive(Clone, Copy)]
pub struct Receipts {
    /// The sender.
    from: SiteId,
    frames: u64,
    /// How many entries were looked at.
    entries: usize,
}

impl Receipts {
    /// Nothing was looked at.
    fn none(from: SiteId) -> Receipts
        ensures { result ≡ no_receipts from }
    {
        Receipts {
            from,
            frames: 0,
            entries: 0,
        }
    }

    /// Counts by the entries of the receiver's journal that were not looked at before.
    fn count(&mut self, entries: &[Entry])
        ensures { CountsReceipts entries.now self.old self.new }
    {
        let more = receipts_from(behind(entries, self.entries), self.from);
        self.frames = self.frames.saturating_add(more);
        self.entries = entries.len();
    }
}

/// The frames that were sent on a link, by the first entries of the sender's journal. The count stops at its greatest
/// number.
#[derive(Clone, Copy)]
pub struct Sendings {
    /// The receiver.
    to: SiteId,
    frames: u64,
    /// How many entries were looked at.
    entries: usize,
}

impl Sendings {
    /// Nothing was looked at.
    fn none(to: SiteId) -> Sendings
        ensures { result ≡ no_sendings to }
    {
        Sendings {
            to,
            frames: 0,
            entries: 0,
        }
    }

    /// Counts by the entries of the sender's journal that were not looked at before.
    fn count(&mut self, entries: &[Entry])
        ensures { CountsSendings entries.now self.old self.new }
    {
        let more = sendings_to(behind(entries, self.entries), self.to);
        self.frames = self.frames.saturating_add(more);
        self.entries = entries.len();
    }
}

/// The entries after the first so many.
fn behind(entries: &[Entry], first: usize) -> &[Entry]
    ensures { result.now ≡ drop first entries.now }
{
    let (_, behind) = entries.split_at(first.min(entries.len()));
    behind
}

/// How many frames from a site these entries got.
fn receipts_from(entries: &[Entry], from: SiteId) -> u64
    ensures { result ≡ min (length (receipts_of from entries.now)) (2 ^ 64 - 1) }
{
    let mut count: u64 = 0;
    for entry in entries {
        if is_from(&entry.event, from) {
            count = count.saturating_add(1);
        }
    }
    count
}

/// Whether an event got a frame from a site.
fn is_from(event: &Event, site: SiteId) -> bool
    ensures yes { result ≡ true → length (frame_from site event.now) ≡ 1 }
    ensures no { result ≡ false → length (frame_from site event.now) ≡ 0 }
{
    match event {
        Event::Got { from, frame: _ } => *from == site,
        _ => false,
    }
}

/// How many frames to a site these entries sent.
fn sendings_to(entries: &[Entry], to: SiteId) -> u64
    ensures { result ≡ min (length (sendings_of to entries.now)) (2 ^ 64 - 1) }
{
    let mut count: u64 = 0;
    for entry in entries {
        count = count.saturating_add(frames_for(entry.sent.as_slice(), to));
    }
    count
}

/// How many of these frames go to a site.
fn frames_for(frames: &[(SiteId, Frame)], site: SiteId) -> u64
    ensures { result ≡ min (length (frames_to site frames.now)) (2 ^ 64 - 1) }
{
    let mut count: u64 = 0;
    for (to, _) in frames {
        if *to == site {
            count = count.saturating_add(1);
        }
    }
    count
}

/// A look at the journals of all sites, one after the other, for the frames that they got.
#[derive(Drop)]
pub struct ReceiptLook {
    /// How many journals were looked at.
    places: usize,
}

impl ReceiptLook {
    /// No journal was looked at.
    pub fn new() -> ReceiptLook
        ensures { result.places ≡ 0 }
    {
        ReceiptLook { places: 0 }
    }
}

/// A look at the journals of all sites for the frames that they sent. It comes after one for the frames that they got, so
/// that each of those is counted among the frames that were sent.
#[derive(Drop)]
pub struct SendingLook {
    /// In how many journals receipts were counted before.
    received: usize,
    /// How many journals were looked at.
    places: usize,
}

impl SendingLook {
    /// No journal was looked at for sendings.
    pub fn after(receipts: ReceiptLook) -> SendingLook
        ensures received { result.received ≡ receipts.places }
        ensures places { result.places ≡ 0 }
    {
        SendingLook {
            received: receipts.places,
            places: 0,
        }
    }
}

/// The frames that went from each site to each other, as far as the journals were looked at. A site is known by its place.
#[derive(Drop)]
pub struct Tally {
    /// By the places of the receiver and the sender.
    received: Vec<Vec<Receipts>>,
    /// By the places of the sender and the receiver.
    sent: Vec<Vec<Sendings>>,
}

impl Tally {
    /// Nothing was looked at. The sites are given by their places.
    pub fn new(alloc: Global, sites: &[SiteId]) -> Result<Tally, AllocError>
        ensures { IfOk result (IsNewTally sites.now) }
    {
        let mut received = Vec::with_capacity(alloc, sites.len())?;
        let mut sent = Vec::with_capacity(alloc, sites.len())?;
        for _ in sites {
            received.push(none_received(alloc, sites)?)?;
            sent.push(none_sent(alloc, sites)?)?;
        }
        Ok(Tally { received, sent })
    }

    /// Counts the receipts in the journal of the site at the next place of a look.
    pub fn count_receipts(&mut self, look: &mut ReceiptLook, entries: &[Entry])
        requires room { look.old.places < 2 ^ 64 - 1 }
        ensures next { look.new.places ≡ look.old.places + 1 }
        ensures counted { IfSome (slice_get self.old.received.items look.old.places) (λ old.
            IfSome (slice_get self.new.received.items look.old.places) (λ new.
            AtEach (CountsReceipts entries.now) old.items new.items)) }
        ensures others { (k : ℕ) → k ≢ look.old.places
            → slice_get self.new.received.items k ≡ slice_get self.old.received.items k }
        ensures sites { length self.new.received.items ≡ length self.old.received.items }
        ensures sent { self.new.sent ≡ self.old.sent }
    {
        let place = look.places;
        if place < self.received.len() {
            count_each_received(&mut self.received[place], entries);
        }
        look.places = place + 1;
    }

    /// Counts the sendings in the journal of the site at the next place of a look.
    pub fn count_sendings(&mut self, look: &mut SendingLook, entries: &[Entry])
        requires room { look.old.places < 2 ^ 64 - 1 }
        ensures next { look.new.places ≡ look.old.places + 1 }
        ensures after { look.new.received ≡ look.old.received }
        ensures counted { IfSome (slice_get self.old.sent.items look.old.places) (λ old.
            IfSome (slice_get self.new.sent.items look.old.places) (λ new.
            AtEach (CountsSendings entries.now) old.items new.items)) }
        ensures others { (k : ℕ) → k ≢ look.old.places
            → slice_get self.new.sent.items k ≡ slice_get self.old.sent.items k }
        ensures sites { length self.new.sent.items ≡ length self.old.sent.items }
        ensures received { self.new.received ≡ self.old.received }
    {
        let place = look.places;
        if place < self.sent.len() {
            count_each_sent(&mut self.sent[place], entries);
        }
        look.places = place + 1;
    }

    /// How many frames were got, on all links. The count stops at its greatest number.
    pub fn receipts(&self) -> u64
        ensures { result ≡ min (receipts_of_all self.now) (2 ^ 64 - 1) }
    {
        let mut count: u64 = 0;
        for row in &self.received {
            count = count.saturating_add(receipts_in(row));
        }
        count
    }

    /// Whether as many frames were got as were sent from the site at one place to that at another.
    pub fn is_balanced(&self, from: usize, to: usize) -> bool
        ensures { MatchOption (received_at self.now from to) ⊤ (λ received.
            MatchOption (sent_at self.now from to) ⊤ (λ sent.
            IsTrue result ↔ (received.frames ≡ sent.frames))) }
    {
        match (self.received(from, to), self.sent(from, to)) {
            (Some(received), Some(sent)) => received.frames == sent.frames,
            _ => true,
        }
    }

    fn received(&self, from: usize, to: usize) -> Option<Receipts>
        ensures { result ≡ received_at self.now from to }
    {
        self.received.get(to)?.get(from).copied()
    }

    fn sent(&self, from: usize, to: usize) -> Option<Sendings>
        ensures { result ≡ sent_at self.now from to }
    {
        self.sent.get(from)?.get(to).copied()
    }
}

/// How many frames were got on the links to a site.
fn receipts_in(row: &[Receipts]) -> u64
    ensures { result ≡ min (sum_by (λ receipts. receipts.frames) row.now) (2 ^ 64 - 1) }
{
    let mut count: u64 = 0;
    for receipts in row {
        count = count.saturating_add(receipts.frames);
    }
    count
}

/// The links to a site, of which nothing was looked at.
fn none_received(alloc: Global, sites: &[SiteId]) -> Result<Vec<Receipts>, AllocError>
    ensures { IfOk result (λ row. row.items ≡ map no_receipts sites.now) }
{
    let mut row = Vec::with_capacity(alloc, sites.len())?;
    for site in sites {
        row.push(Receipts::none(*site))?;
    }
    Ok(row)
}

/// The links from a site, of which nothing was looked at.
fn none_sent(alloc: Global, sites: &[SiteId]) -> Result<Vec<Sendings>, AllocError>
    ensures { IfOk result (λ row. row.items ≡ map no_sendings sites.now) }
{
    let mut row = Vec::with_capacity(alloc, sites.len())?;
    for site in sites {
        row.push(Sendings::none(*site))?;
    }
    Ok(row)
}

/// Counts the receipts on each link to a site, by the entries of its journal.
fn count_each_received(row: &mut [Receipts], entries: &[Entry])
    ensures { AtEach (CountsReceipts entries.now) row.old row.new }
{
    for receipts in row.iter_mut() {
        receipts.count(entries);
    }
}

/// Counts the sendings on each link from a site, by the entries of its journal.
fn count_each_sent(row: &mut [Sendings], entries: &[Entry])
    ensures { AtEach (CountsSendings entries.now) row.old row.new }
{
    for sendings in row.iter_mut() {
        sendings.count(entries);
    }
}

/// The time since a frame came, while a cluster waits for more.
#[derive(Drop)]
pub struct Silence {
    receipts: u64,
    /// When so many had come first, by the clock.
    since: Option<Duration>,
    length: Duration,
}

impl Silence {
    pub fn new() -> Silence {
        Silence {
            receipts: 0,
            since: None,
            length: Duration::ZERO,
        }
    }

    /// Whether no frame has come for 10 seconds; so many have come in all. A clock that tells no time never says so.
    pub fn lasts_too_long<R: Clock>(&mut self, rt: &R, receipts: u64) -> bool
        // A frame that came ends the silence.
        ensures ended { receipts ≢ self.old.receipts → result ≡ false }
        ensures long { result ≡ true → 10 * 10 ^ 9 ≤ as_nanos self.new.length }
    {
        let Ok(now) = rt.monotonic() else {
            return false;
        };
        match self.since {
            Some(since) if receipts == self.receipts => self.length = now.saturating_sub(since),
            _ => {
                self.receipts = receipts;
                self.since = Some(now);
                self.length = Duration::ZERO;
            }
        }
        self.length >= Duration::from_secs(MOST_SILENT_SECONDS)
    }

    /// Pauses for a hundredth of it, and at least for a millisecond.
    pub fn pause<R: Clock>(&self, rt: &R) {
        rt.sleep(Duration::from_millis(1).max(self.length / 100));
    }
}
