//! Pictures of the journals of a world of edition 3, made of the marks of `cmh_draw`, and the command `draw` that writes them.
#![tactic(auto)]

mod arrows;
mod columns;
mod drawing;
mod epoch_part;
mod long_drawing;
mod newer_run;
mod running;
mod waiting;

pub use crate::drawing::run_draw3;
pub use crate::long_drawing::{LongDrawing, run_long_draw3};
pub use crate::running::run_picture;
pub use crate::waiting::waits_picture;
