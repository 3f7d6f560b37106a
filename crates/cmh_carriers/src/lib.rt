//! What carries bytes between two sites, connections over TCP and over memory. The states of a site's links. And what a
//! site notices and no line asks for, as notes for its operator.
#![tactic(auto)]

mod carrier;
mod gate;
mod memory;
mod meter;
mod note;
mod notes;
mod stream;
mod table;
mod tcp;

pub use crate::carrier::{ConnectionHandle, Dial, Incoming, IoFault, Listen, Outgoing};
pub use crate::gate::{Door, Gate};
pub use crate::memory::{MemIncoming, MemOutgoing};
pub use crate::meter::Meter;
pub use crate::note::{Note, Noted, Origin};
pub use crate::notes::{NoVoice, Noting, Speaker, Voice};
pub use crate::stream::{Accept, Look, StreamIncoming, StreamListen, StreamOutgoing};
pub use crate::table::{LinkFault, LinkState, LinkTable, SharedLinks};
pub use crate::tcp::{TcpConnection, TcpDial, TcpIncoming, TcpListen, TcpOutgoing, TcpPort};
