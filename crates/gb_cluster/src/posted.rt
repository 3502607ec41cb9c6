//! Packets that were sent.
use gb_node::PacketText;
use gb_types::NodeId;

/// A packet that was sent.
#[derive(Drop)]
pub struct Posted {
    /// The node that it was sent to.
    pub to: NodeId,
    pub text: PacketText,
}
