//! An event at a node, with the node's answer.
use crate::answer::NodeAnswer;
use crate::event::NodeEvent;
use gb_types::NodeId;

/// An event at a node, and the answer of this node. The run of a cluster is a list of these, and so are the calls of a caller of a host.
#[derive(Drop)]
pub struct NodeStep {
    pub node: NodeId,
    pub event: NodeEvent,
    pub answer: NodeAnswer,
}
