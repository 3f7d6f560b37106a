//! What a site notices by itself, as lines for its operator.

use cmh_model3::SiteId;
use cmh_node3::Sealed;
use std::fmt;

/// What a site noticed.
#[derive(Clone, Copy)]
pub enum SiteNote {
    /// The link to a site is open, for the first time since this one was started.
    OutOpen(SiteId),
    /// It is open again, and goes on where it was.
    OutAgain(SiteId),
    /// Its connection ended, and so many messages are kept.
    OutDown(SiteId, usize),
    /// It is refused by the reason of this number until this site is started again.
    OutRefused(SiteId, u8),
    /// The link from a site is open, for the first time since this one was started.
    InOpen(SiteId),
    /// It is open again, and goes on where it was.
    InAgain(SiteId),
    /// Its connection ended.
    InEnded(SiteId),
    /// The rules refused one of its messages, so that it is closed.
    InClosed(SiteId),
    /// The site has stopped for good, since the disk failed or is full.
    DiskFailed,
    /// It has, since memory was refused.
    NoMemory,
    /// It has, since its journal and that of a site do not fit: the number is that of the refusal.
    Mismatched(SiteId, u8),
    /// Events of clients are refused until each link has answered.
    Waits,
    /// Each link has answered.
    Met,
    /// So many notes were not told, since they came too fast.
    LeftOut(u64),
}

/// Why a link is refused.
fn reason_of(number: u8) -> &'static str {
    match number {
        1 => "it runs another edition",
        2 => "it is of another world",
        3 => "another site listens at its port",
        4 => "its topology lacks this site",
        7 => "it got more than this site has sent, so this journal is too old",
        8 => "it got other messages than this site has sent, so this journal is of another history",
        9 => "it lacks messages that it acknowledged, so its journal is too old, and it is sealed",
        _ => "it takes no messages",
    }
}

impl fmt::Display for SiteNote {
    fn fmt<W: fmt::Write>(&self, f: &mut fmt::Formatter<W>) -> fmt::Result {
        match self {
            SiteNote::OutOpen(site) => write!(f, "note out {site} open"),
            SiteNote::OutAgain(site) => write!(f, "note out {site} open again"),
            SiteNote::OutDown(site, kept) => write!(
                f,
                "note out {site} down: it is dialled again, and {kept} messages are kept for it"
            ),
            SiteNote::OutRefused(site, number) => {
                let reason = reason_of(*number);
                write!(f, "note out {site} refused {number}: {reason}")
            }
            SiteNote::InOpen(site) => write!(f, "note in {site} open"),
            SiteNote::InAgain(site) => write!(f, "note in {site} open again"),
            SiteNote::InEnded(site) => write!(f, "note in {site} resting: its connection ended"),
            SiteNote::InClosed(site) => write!(
                f,
                "note in {site} closed 4: it sent a message that the rules forbid"
            ),
            SiteNote::DiskFailed => write!(f, "note sealed: the disk failed or is full"),
            SiteNote::NoMemory => write!(f, "note sealed: out of memory"),
            SiteNote::Mismatched(site, number) => write!(
                f,
                "note sealed: this journal and that of site {site} do not fit, by {number}"
            ),
            SiteNote::Waits => write!(f, "note no event is taken until each link has answered"),
            SiteNote::Met => write!(f, "note each link has answered: events are taken"),
            SiteNote::LeftOut(count) => write!(f, "note left out {count}"),
        }
    }
}

/// The note of a site that has stopped for good.
impl From<Sealed> for SiteNote {
    fn from(why: Sealed) -> Self {
        match why {
            Sealed::Disk => SiteNote::DiskFailed,
            Sealed::Memory => SiteNote::NoMemory,
            Sealed::Mismatch(site, mismatch) => SiteNote::Mismatched(site, mismatch.number()),
        }
    }
}
