//! What a door is told.
use crate::limits::Limits;
use crate::page::Page;
use std::net::SocketAddr;

/// What a door is told, beside where it listens.
#[derive(Clone, Copy)]
pub struct Door<'a, 'o> {
    /// Where the sessions of its node are.
    pub node: SocketAddr,
    pub page: &'a Page,
    /// The origins whose pages are let in.
    pub origins: &'a [&'o str],
    pub limits: Limits,
    /// How many connections are served at once; one more is closed.
    pub connections: u64,
    /// How many connections are served in all.
    pub sessions: u64,
}
