//! How a worker ends.

/// Why a worker ended.
#[derive(Clone, Copy, PartialEq, Eq)]
pub enum Why {
    /// It made all turns that were asked for.
    Turns,
    /// Its gate returned false.
    Gate,
    /// Its node answered Stopped. A ticker never ends with this.
    Stopped,
    /// The host refused a call, for another reason than that it could not keep the call.
    Fault,
}

/// How a worker ended.
#[derive(Clone, Copy, PartialEq, Eq)]
pub struct WorkerEnd {
    /// The number of whole turns that it made.
    pub turns: u64,
    /// The number of calls that the host refused with OutOfMemory or Behind; it stops counting at 2^64 - 1. Nothing happened in
    /// them.
    pub refused: u64,
    pub why: Why,
}
