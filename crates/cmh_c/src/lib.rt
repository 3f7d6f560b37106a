//! The functions that C calls, and those of languages that call C. `include/cmh.h` says what each is for.
#![tactic(auto)]

mod audits;
mod codes;
mod entries;
mod entries3;
mod links3;
mod numbers;
mod opening;
mod opening3;
mod readers;
mod rows;
mod sites;
mod sites3;

pub use crate::entries::CmhSending;
pub use crate::readers::CmhReader;
pub use crate::sites::CmhSite;
pub use crate::sites3::CmhSite3;
