//! The node at which a group is made.
ghost use Rattle.std.specs.Prelude.{◌≡◌};
ghost use Rattle.gb_types.specs.Common.{version_at};

use gb_types::{Bounds, NodeId, Version};

/// The node at which a group is to be made.
#[derive(Clone, Copy)]
pub struct Maker {
    pub me: NodeId,
    /// The number of nodes of its cluster, 1 to 32.
    pub nodes: u8,
    /// The version of the packet text that it sends.
    pub version: Version,
}

impl Maker {
    /// Returns the node `me` of a cluster with these bounds.
    pub fn of(bounds: &Bounds, me: NodeId) -> Maker
        ensures { result ≡ record { me = me; nodes = bounds.now.nodes; version = version_at bounds.now.versions me.number } }
    {
        Maker {
            me,
            nodes: bounds.nodes,
            version: bounds.version_of(me),
        }
    }
}
