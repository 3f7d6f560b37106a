//! The commands over the files of a world, `audit` (plain, with `--why` or with `--run`) and `show`, and what they show as
//! lines: the entries of a journal in the words of scripts and of their answers, the verdict, and why journals come from
//! no run, which is the reason for which each site stops.
//!
//! Of journals whose sites run, `stop_of` says where to cut what was read of them, so that it is as if all sites had
//! stopped at once. Their files are read one after the other. So an early file may lack the sending of a frame whose
//! receipt is in a later one. A site syncs an entry before it sends the frames of it, so the file has the sending when it
//! is read once more.
#![tactic(auto)]

mod audit_fault;
mod audit_text;
mod auditing;
mod before;
mod common_stop;
mod counts;
mod difference;
mod entry_text;
mod explaining;
mod headline;
mod length;
mod lowest;
mod own;
mod reading;
mod reason;
mod reason_text;
mod run_line;
mod run_lines;
mod show_fault;
mod showing;
mod shown;
mod stop;
mod telling;
mod two_reads;
mod walk;

pub use crate::audit_fault::AuditFault;
pub use crate::audit_text::{Cuts, VerdictText};
pub use crate::auditing::{Audited, audit_files, run_audit};
pub use crate::common_stop::stop_of;
pub use crate::entry_text::{EntryLines, EntryText, EventText};
pub use crate::explaining::run_audit_why;
pub use crate::headline::headline_law;
pub use crate::reason::Reason;
pub use crate::reason_text::reason_lines;
pub use crate::run_line::RunLine;
pub use crate::show_fault::ShowFault;
pub use crate::showing::run_show;
pub use crate::shown::{Rest, Shown, read_shown};
pub use crate::stop::reason_of;
pub use crate::telling::run_audit_run;
pub use crate::two_reads::two_reads_law;
