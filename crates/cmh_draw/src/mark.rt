//! What a picture is made of.

use cmh_frames::{Event, Frame, ProcId, SiteId};
use cmh_model3::Stamp;

/// A place in a picture: a column from the left and a row from the top, both from 0.
#[derive(Clone, Copy)]
pub struct Spot {
    pub column: u32,
    pub row: u32,
}

/// An entry of a site's journal by its number, from 1, and where it is drawn.
#[derive(Clone, Copy)]
pub struct EntrySpot {
    pub site: SiteId,
    pub number: usize,
    pub spot: Spot,
}

/// One thing that is drawn.
#[derive(Drop)]
pub enum Mark {
    Site(Site),
    Process(Process),
    Wait(Wait),
    /// A process that was declared, and whose cycle a member has left since.
    Released(Process),
    /// The asker has given up its wait for the holder, which has not answered yet.
    Leaving(Wait),
    Entry(EntryMark),
    Arrow(Arrow),
    /// An entry that can't be taken: no run of these journals gets further. In a picture of waits it stands in the row
    /// of its site's place, in column 0.
    Stop(EntrySpot),
}

/// A site: its place among those of the topology, from 0, and how long it is. In a picture of waits it is a box round so
/// many processes, in a run a line of so many columns.
#[derive(Clone, Copy)]
pub struct Site {
    pub site: SiteId,
    pub place: u32,
    pub length: u32,
}

/// A process at its site.
#[derive(Clone, Copy)]
pub struct Process {
    pub process: ProcId,
    pub site: SiteId,
    pub spot: Spot,
    pub is_declared: bool,
}

/// A process waits for another; the wait may lie on the cycle of a declared process.
#[derive(Clone, Copy)]
pub struct Wait {
    pub asker: ProcId,
    pub holder: ProcId,
    pub from: Spot,
    pub to: Spot,
    pub is_on_cycle: bool,
}

/// What happened at a site.
#[derive(Drop)]
pub enum DrawnEvent {
    /// In editions 1 and 2.
    Older(Event),
    /// In edition 3.
    Newer(cmh_model3::Event),
}

/// What one site sends to another.
#[derive(Clone, Copy)]
pub enum DrawnFrame {
    /// In editions 1 and 2.
    Older(Frame),
    /// In edition 3.
    Newer(cmh_model3::Frame),
}

/// A process that was declared.
#[derive(Clone, Copy)]
pub struct Declared {
    pub process: ProcId,
    /// The stop at which its cycle stood, in edition 3.
    pub stop: Option<Stamp>,
    /// Whether it is over: the cycle was left since, or the process asked again.
    pub is_over: bool,
}

/// What happened at a site, and who was declared then.
#[derive(Drop)]
pub struct EntryMark {
    pub at: EntrySpot,
    pub event: DrawnEvent,
    pub declared: Option<Declared>,
}

/// A frame from the entry that sent it, with its place among all that this entry sent, from 0, to the entry that got it.
/// Where none did it is lost, or waits on its link.
#[derive(Clone, Copy)]
pub struct Arrow {
    pub from: EntrySpot,
    pub place: usize,
    pub to: SiteId,
    pub frame: DrawnFrame,
    pub got: Option<EntrySpot>,
}
