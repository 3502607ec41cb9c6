//! What a door is told by the words of a command line.
use std::net::SocketAddr;

/// What numbers and addresses the words of a command line give.
#[derive(Clone, Copy, PartialEq, Eq)]
pub struct WebPlan {
    /// Where HTTP is served.
    pub listen: SocketAddr,
    /// Where the sessions of the node are.
    pub node: SocketAddr,
    /// How many connections are served at once, 1 to 60,000.
    pub connections: u16,
    /// How many connections are served in all, 0 to 1,000. 0: they are served for ever.
    pub sessions: u16,
    /// Whether HTTP may be served at another address than loopback.
    pub remote_clients: bool,
}

/// What the words of a command line tell a door to do.
#[derive(Drop)]
pub struct WebWords<'a> {
    pub plan: WebPlan,
    /// The folder with the page, as it was written; `None`: none was given.
    pub page: Option<&'a str>,
    /// The origins whose pages are let in, as they were written, in their order.
    pub origins: Vec<&'a str>,
}
