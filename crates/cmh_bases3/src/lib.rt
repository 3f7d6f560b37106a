//! The way between the base of an epoch and the controller of a site.
//!
//! A base says a state by its rows. Not each base says one that the rules of edition 3 lead to: `specs/Bases.antt` says which
//! bases a site can begin with, and just these give a controller (`controller_of`).
//!
//! `base_of` goes the other way at a turn: it reads a controller, and gives the base of its state with which the next epoch
//! begins. It can be written where its links can, which `links_fit` answers.
#![tactic(auto)]

mod base;
mod controller;
mod kinds;
mod laws;
mod links;
mod pairs;
mod replies;
mod rows;
mod stamped;

pub use crate::base::base_of;
pub use crate::controller::controller_of;
pub use crate::laws::bases_law;
pub use crate::links::links_fit;
