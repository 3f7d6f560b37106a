//! Why a seat takes no step, or answers no question.

use cmh_controller3::Refusal;

/// Why a seat takes no step, or answers no question. The first reason that holds is given, in this order.
#[derive(Clone, Copy)]
pub enum SeatFault {
    /// An entry is prepared, and waits to be kept or dropped.
    Prepared,
    /// The journal holds 1,000,000 entries.
    Full,
    /// The bytes are not those of an event.
    NoEvent,
    /// The rules refuse the event, or the question is about a process that is not at the site.
    Rule(Refusal),
    /// What was lent is shorter than the entry, which has so many bytes.
    Short(usize),
    /// Out of memory.
    Starved,
}
