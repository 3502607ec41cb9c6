//! The entries of a relay, one for each message, in the order of first mention.
use gb_types::{MsgId, NodeSet};

/// A message, the nodes that hold it as far as this node knows, and whether it was sent and handed up from here. specs/Relay.antt has
/// the entries that a relay makes; `column` keeps them.
#[derive(Drop)]
pub struct Entry {
    pub m: MsgId,
    pub holders: NodeSet,
    pub sent: bool,
    pub given: bool,
}
