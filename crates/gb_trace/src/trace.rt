//! The result of a run.
use gb_cluster::{Answer, Posted};

/// The result of a run of a cluster.
#[derive(Drop)]
pub struct Trace {
    /// The answer to each event, in order.
    pub answers: Vec<Answer>,
    /// Every packet that was sent, in order: packet 1 is first.
    pub packets: Vec<Posted>,
    /// True if a node refused for lack of memory at some event.
    pub refused: bool,
}
