//! Moments of a run, as they concern one group.
use gb_node::NodeStep;
use gb_types::{Addr, NodeId, Plan};

/// A moment of a run, for one group and one node.
#[derive(Clone, Copy)]
pub(crate) struct Moment<'a> {
    /// The plan of the cluster.
    pub plan: &'a Plan,
    /// The group.
    pub addr: Addr,
    /// What happened before the moment, in order: the newest stands last.
    pub before: &'a [NodeStep],
    /// The node at which something happens at the moment, or another node at which the run is seen then.
    pub node: NodeId,
}
