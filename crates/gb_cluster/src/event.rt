//! The events of a cluster.
use gb_node::NodeEvent;
use gb_types::NodeId;

/// An event in a cluster, which happens at one of its nodes.
#[derive(Drop)]
pub enum Event {
    /// An event at a node. Bytes that come in this way are noise: anything except a packet of the cluster for the node.
    At(NodeId, NodeEvent),
    /// The packet with this number, which was sent, arrives at the node that it was sent to; packets are counted from 1.
    Arrive(u64),
}
