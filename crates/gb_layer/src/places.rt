//! Ranges of places in a list of messages.

/// The places `from` to `to - 1`.
#[derive(Clone, Copy)]
pub struct Places {
    pub from: usize,
    pub to: usize,
}
