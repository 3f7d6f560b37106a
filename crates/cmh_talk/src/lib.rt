//! What the lines of a site's clients say, and what they are answered, as it is printed and sent: by a site that reads its
//! standard input, by one of a cluster, and by a service.
//!
//! What an answer means is said of stations. Here nothing runs: `cmh_host` has the site that is asked.
#![tactic(auto)]

mod language;
mod laws;
mod reply;
mod said;
mod site_reply;

pub use crate::language::Lines;
pub use crate::laws::service_law;
pub use crate::reply::{EventReply, Reply, Status};
pub use crate::said::{Said, parse_for_service};
pub use crate::site_reply::{ClosedLink, LinkEnds, SiteReply};
