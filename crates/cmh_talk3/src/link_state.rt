//! How the two links with another site stand.

ghost use Rattle.std.specs.Prelude.{◌≡◌, Some};
ghost use Rattle.cmh_talk3.specs.Links as spec;
ghost use Rattle.cmh_talk3.specs.Links.{into_text, out_text};

use cmh_model3::SiteId;
use cmh_resume3::{ReceiverEnd, SenderEnd, State};
use std::fmt;

/// How the link to another site stands.
#[derive(Clone, Copy, PartialEq, Eq)]
pub enum OutState {
    /// Messages are written.
    Open,
    /// There is no connection, or its hello was not answered yet. So many messages are kept.
    Down(usize),
    /// The receiver refused, 1 to 6, or the journals do not fit, 7 to 9. It stays so until the site is started again.
    Refused(u8),
}

/// How the link from another site stands.
#[derive(Clone, Copy, PartialEq, Eq)]
pub enum IntoState {
    /// A connection has the claim.
    Open,
    /// None has.
    Resting,
    /// The rules refused one of its messages, so that it is closed for good.
    Closed,
}

/// How the two links with another site stand.
#[derive(Clone, Copy)]
pub struct LinkStates {
    pub site: SiteId,
    /// The link to that site.
    pub out: OutState,
    /// The link from it.
    pub into: IntoState,
}

/// How a sender's end stands.
pub fn out_state(end: &SenderEnd) -> OutState
    ensures { result ≡ spec.out_state end.now }
{
    match end.state() {
        State::Down { .. } | State::Asked { .. } => OutState::Down(end.kept()),
        State::Running { .. } => OutState::Open,
        State::Refused(refusal) => OutState::Refused(refusal.number()),
        State::Mismatched(mismatch) => OutState::Refused(mismatch.number()),
    }
}

/// How a receiver's end stands.
pub fn into_state(end: &ReceiverEnd) -> IntoState
    ensures { result ≡ spec.into_state end.now }
{
    if end.is_closed() {
        return IntoState::Closed;
    }
    if end.is_open() {
        IntoState::Open
    } else {
        IntoState::Resting
    }
}

impl fmt::Display for OutState {
    ghost output = { λ state. Some (out_text state) };

    fn fmt<W: fmt::Write>(&self, f: &mut fmt::Formatter<W>) -> fmt::Result {
        match self {
            OutState::Open => write!(f, "open"),
            OutState::Down(kept) => write!(f, "down {kept}"),
            OutState::Refused(number) => write!(f, "refused {number}"),
        }
    }
}

impl fmt::Display for IntoState {
    ghost output = { λ state. Some (into_text state) };

    fn fmt<W: fmt::Write>(&self, f: &mut fmt::Formatter<W>) -> fmt::Result {
        match self {
            IntoState::Open => write!(f, "open"),
            IntoState::Resting => write!(f, "resting"),
            IntoState::Closed => write!(f, "closed 4"),
        }
    }
}

impl fmt::Display for LinkStates {
    ghost output = { λ states. Some (spec.states_text states) };

    fn fmt<W: fmt::Write>(&self, f: &mut fmt::Formatter<W>) -> fmt::Result {
        let site = self.site;
        let out = self.out;
        let into = self.into;
        write!(f, "out {site} {out}\nin {site} {into}\n")
    }
}
