//! The epochs of a world of edition 3, from the journals of its sites: the segments of each, one for each epoch that its site
//! began, and the audit of them.
//!
//! The bases of an epoch say together what is under way between the sites as it begins. `audit_epoch` first asks whether they
//! agree on that, and then merges the entries from there. Where it accepts, it says where the epoch leads. `follows` holds the
//! bases of the next one against that, and `audit_chain` audits epochs one after the other, which come from one run where all
//! are accepted.
//!
//! `check_journal` says whether segments are those of one site from its first epoch on. `epochs_of` gives the epochs that all
//! sites have ended, one after the other, and then the open one with all that follows. `audit_history` audits them, and
//! `audit_part` those from one of them on.
#![tactic(auto)]

mod between;
mod chain;
mod check;
mod epoch_set;
mod epoch_verdict;
mod epochs;
mod journal;
mod judged;
mod next;
mod part;
mod queues;
mod segments;
mod states;
mod turns;
mod under_way;
mod verdict;

pub use crate::between::{Link, disagreement, under_way as messages_between};
pub use crate::chain::{ChainVerdict, audit_chain};
pub use crate::check::{JournalFault, check_journal, check_part};
pub use crate::epoch_set::are_of_epoch;
pub use crate::epoch_verdict::{EpochVerdict, audit_epoch};
pub use crate::epochs::{epochs_of, whole_journals};
pub use crate::journal::Journal;
pub use crate::judged::verdict_on;
pub use crate::next::follows;
pub use crate::part::{Part, audit_part, begins_with};
pub use crate::turns::turn_law;
pub use crate::under_way::queues_of;
pub use crate::verdict::{HistoryFault, HistoryVerdict, audit_history};
