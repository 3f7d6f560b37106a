//! What a running site of edition 3 says to its clients: what their lines mean, what is answered to them, and the news that
//! whoever watches is told. Nothing here knows what carries the bytes.
#![tactic(auto)]

mod answer;
mod deed;
mod language;
mod link_state;
mod news;
mod reply;
mod replying;
mod said;
mod telling;

pub use crate::answer::{answer_question, states_of};
pub use crate::deed::{Deed, Question};
pub use crate::language::Lines;
pub use crate::link_state::{IntoState, LinkStates, OutState, into_state, out_state};
pub use crate::news::News;
pub use crate::reply::{EventReply, Figures, Reply, Status};
pub use crate::replying::{reply_of, reply_of_none, reply_while_waiting};
pub use crate::said::{Said, parse};
pub use crate::telling::{
    LeftPair, declared_before, left_pairs, link_news, news_of_own, news_of_taken,
};
