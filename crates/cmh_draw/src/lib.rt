//! Pictures of journals, as lists of marks: who waits for whom at the end, and the run as a space-time diagram.
#![tactic(auto)]

mod arrows;
mod columns;
mod drawn_run;
mod mark;
mod picture;
mod running;
mod size;
mod waiting;

pub use crate::arrows::{forward, pair_up, spot_of};
pub use crate::columns::{Columns, checked, search_by};
pub use crate::drawn_run::Line;
pub use crate::mark::{
    Arrow, Declared, DrawnEvent, DrawnFrame, EntryMark, EntrySpot, Mark, Process, Site, Spot, Wait,
};
pub use crate::picture::{Kind, NoKind, Picture};
pub use crate::running::{add_arrows, row_of, run_picture};
pub use crate::size::width_of;
pub use crate::waiting::{has_step, place_of, waits_picture};
