//! What the file of a cluster says.
use gb_types::Version;

/// Where a socket of a node is reached.
#[derive(Debug, Drop)]
pub struct Place {
    /// A name, an IPv4 address, or an IPv6 address without brackets. Not empty.
    pub host: String,
    /// 1 to 65,535.
    pub port: u16,
}

/// Where a node is reached.
#[derive(Debug, Drop)]
pub struct NodePlaces {
    /// Where it takes packets, by UDP.
    pub packets: Place,
    /// Where it takes sessions, by TCP.
    pub sessions: Place,
}

/// What the file of a cluster says.
#[derive(Drop)]
pub struct ClusterFile {
    /// The number of the run: 1 to 9,223,372,036,854,775,807.
    pub run: u64,
    /// How many ticks without a good packet make a node noticed as crashed, 2 to 1,000.
    pub silence: u16,
    /// The time between two ticks in milliseconds, 1 to 60,000.
    pub tick: u16,
    /// The version of the packet text that each node sends.
    pub version: Version,
    /// The most bytes of the items of a packet, 256 to 16,345.
    pub room: u16,
    /// The nodes, node 0 first: at least 1, and no more than the version can name.
    pub nodes: Vec<NodePlaces>,
}
