//! What a line of a schedule asks for.
use gb_types::limits::NODES;
use gb_types::{Addr, NodeId, Payload, Request, Version};

/// What a line asks for by a head and numbers alone: a fetch, and all that is asked of links, time and a node's end.
#[derive(Clone, Copy)]
pub enum Step {
    /// Lets `node` pack the first items that wait for the node `to`.
    Pack {
        node: NodeId,
        to: NodeId,
    },
    /// Lets `node` send its frame with the number `frame` to the node `to` again, if that frame is not acknowledged. 0 stands for the
    /// lowest such number.
    Again {
        node: NodeId,
        to: NodeId,
        frame: u64,
    },
    /// Lets `node` acknowledge the frames that it received from the node `to`.
    Ack {
        node: NodeId,
        to: NodeId,
    },
    /// Lets the packet with this number arrive at the node that it was sent to. Packets are numbered from 1 as they are sent.
    Arrive(u64),
    /// Lets time pass at a node.
    Tick(NodeId),
    /// Stops a node for good.
    Stop(NodeId),
    /// Lets the group's member at `node` read its log, from the entry with index `from` on, up to `most` entries. The member's token
    /// is added when the line is executed.
    Fetch {
        node: NodeId,
        address: Addr,
        from: u32,
        most: u32,
    },
}

/// How a cluster is started.
#[derive(Clone, Copy)]
pub struct ClusterStart {
    /// The number of nodes: 1 to 32, and at most what the version of each of them can name.
    pub nodes: u8,
    /// The version of the packet text that each node sends, by its number; One at the indices past the last node.
    pub versions: [Version; NODES],
    /// The number of ticks without a good packet after which a node is noticed: 2 to 1,000.
    pub silence: u16,
    /// The most bytes of the items of a packet: 1 to 16,345.
    pub room: u16,
}

/// What a line of a schedule asks for.
#[derive(Drop)]
pub enum Command {
    /// Starts a cluster.
    Cluster(ClusterStart),
    /// Makes a request other than a fetch at a node.
    Request(NodeId, Request),
    /// Hands bytes in at a node. If they are a packet of the cluster for that node, nothing is handed in.
    Noise(NodeId, Payload),
    /// Lets a packet be sent or arrive, time pass, a node stop, or a member fetch.
    Step(Step),
}
