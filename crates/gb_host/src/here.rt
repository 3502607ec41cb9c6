//! Sets of the nodes that are here.
ghost use Rattle.std.specs.Prelude.{ℕ, ◌≡◌, ◌<◌, ◌≤◌, true};
ghost use Rattle.std.specs.FinSet as set;
ghost use Rattle.gb_types.specs.declared.limits.TheConstants.{NODES};

use gb_types::{NodeId, NodeSet};

/// Returns all nodes of a cluster of `nodes` nodes.
pub fn all_nodes(nodes: u8) -> NodeSet
    requires { nodes ≤ NODES }
    ensures whole { (k : ℕ) → k < nodes → set.contains result k ≡ true }
    ensures within { (k : ℕ) → set.contains result k ≡ true → k < nodes }
{
    let mut here = NodeSet::new();
    for number in 0..nodes {
        here.insert(NodeId::new(number));
    }
    here
}

/// Returns the set of one node.
pub fn only(node: NodeId) -> NodeSet
    ensures has { set.contains result node.number ≡ true }
    ensures others { (k : ℕ) → set.contains result k ≡ true → k ≡ node.number }
{
    let mut here = NodeSet::new();
    here.insert(node);
    here
}
