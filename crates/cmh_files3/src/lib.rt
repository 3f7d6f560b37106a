//! The commands over the files of a world of edition 3: `audit`, and `show`, with what they show as lines.
#![tactic(auto)]

mod audit_fault;
mod auditing;
mod difference;
mod entries;
mod entry_text;
mod more;
mod own;
mod reason;
mod reason_lines;
mod run_lines;
mod showing;
mod shown;
mod stop;
mod taken;
mod telling;

pub use crate::audit_fault::AuditFault;
pub use crate::auditing::{
    Audited, Finding, World, audit_files, finding_on, read_world, run_audit3,
};
pub use crate::entries::before_stop;
pub use crate::entry_text::EntryText;
pub use crate::more::More;
pub use crate::reason_lines::reason_lines as lines_of_reasons;
pub use crate::run_lines::run_lines as lines_of_run;
pub use crate::showing::run_show3;
pub use crate::shown::{Shown, read_shown};
pub use crate::telling::run_audit3_with;
