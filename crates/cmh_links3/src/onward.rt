//! What becomes of a connection.

/// What becomes of a connection.
#[derive(Clone, Copy)]
pub enum Onward {
    /// It goes on.
    Open,
    /// It is closed, once what is still to be written was tried to be written.
    Close,
}
