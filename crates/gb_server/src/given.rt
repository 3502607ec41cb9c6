//! What a server is given: what was opened for it, what each of its nodes has of its own, and what all its threads share.
use crate::record_file::RecordFile;
use crate::recorded::NodeLog;
use crate::signals::Signals;
use crate::sockets::Sockets;
use crate::status::StatusSource;
use gb_host::{Host, Seat, Tapes};
use gb_loop::LoopOptions;

/// What was opened for a server before its host is made.
#[derive(Drop)]
pub struct Opened {
    /// The sockets of each node, in the order of the nodes.
    pub sockets: Vec<Sockets>,
    /// The file of each node's record, in the order of the nodes. None if no records are kept.
    pub files: Vec<RecordFile>,
    /// Where its status is asked for, if it may be.
    pub status: Option<StatusSource>,
}

/// What a server is given: for each node a seat and its sockets, and what it records by, if it does.
#[derive(Drop)]
pub struct Given<L: Tapes> {
    pub seats: Vec<Seat<L>>,
    pub sockets: Vec<Sockets>,
    pub logs: Vec<NodeLog<L>>,
}

/// What the threads of a server share.
#[derive(Drop)]
pub struct Server<'a, L: Tapes> {
    /// The host of its nodes.
    pub host: &'a Host<L>,
    /// How the loops of its nodes behave.
    pub options: LoopOptions,
    /// What its threads tell one another.
    pub signals: Signals,
}
