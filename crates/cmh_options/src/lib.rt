//! The command line: its commands, their options and the long help.
#![tactic(auto)]

mod help;
mod options;

pub use crate::help::Help;
pub use crate::options::{
    AUDIT, BACKLOG, CLUSTER, DECLARATIONS, DRAW, EDITION, EDITION_THREE, EPOCH, EXPLAIN, FORMAT,
    FROM, JOURNAL, JOURNALS, KIND, NEW, NEW_WORLD, NOTES, OUT, PAGE, PATIENCE, PLAY, PORT, QUIET,
    RECORD, RESTORE, RUN, SCRIPT, SEGMENTS, SERVE, SHOW, SITE, STRICT, TO, TOPOLOGY,
    WAIT_FOR_PEERS, WHY, command,
};
