//! A site's station: its controller with a journal that a sink keeps, its ends of the links to the other sites, and a
//! board of what it has declared; and the lock under which threads share it.
#![tactic(auto)]

mod arrivals;
mod batch;
mod feeding;
mod follower;
mod journaled;
mod keeper;
pub mod laws;
mod newest;
mod parking_tap;
mod past;
mod questions;
mod refusal;
mod shared;
mod station;
mod storing;

pub use crate::batch::BATCH_LIMIT;
pub use crate::follower::Figures;
pub use crate::journaled::JournaledController;
pub use crate::keeper::Keeper;
pub use crate::newest::NewestEntries;
pub use crate::parking_tap::{LinkTap, ParkingTap};
pub use crate::refusal::StationRefusal;
pub use crate::shared::SharedStation;
pub use crate::station::Station;
pub use cmh_shared::{BoardReader, Declared, KeptBoard, Listing, Told};
