//! Which items from other nodes are let fall: taken in without any effect.
ghost use Rattle.std.specs.Prelude.{◌≡◌, []};
ghost use Rattle.gb_rules.specs.LetFall.{is_let_fall};

use gb_types::{MsgId, NodeId, Spec};

/// What a node knows of a message that comes from another node.
#[derive(Clone, Copy)]
pub struct Knowledge {
    /// Whether the message came from the same node before.
    pub before: bool,
    /// Whether the message is known here: it came from some node before, or was said here.
    pub known: bool,
    /// The number of payload bytes of the messages of its origin that are known here.
    pub seen: u32,
}

/// Returns true if message `m`, which came from node `from` to node `me`, has to be dropped (let fall). That is so if `from` or the
/// origin is no member, if `from` is `me`, if the message came from there before, if its number is 0 or above the group's number of
/// messages, or if it is not known here and either is an own message or would exceed the limit of its origin's payload bytes.
pub fn is_let_fall(
    spec: &Spec,
    me: NodeId,
    from: NodeId,
    m: MsgId,
    payload: &[u8],
    knowledge: Knowledge,
) -> bool
    ensures test { result ≡ is_let_fall spec.now me.number from.number (record { origin = m.origin; seq = m.seq; payload = payload.now }) knowledge.before knowledge.known knowledge.seen }
{
    if !spec.members.contains(from) || !spec.members.contains(m.origin) {
        return true;
    }
    if from == me || knowledge.before || m.seq == 0 {
        return true;
    }
    if u32::from(m.seq) > spec.msgs {
        return true;
    }
    if knowledge.known {
        return false;
    }
    m.origin == me || knowledge.seen as usize + payload.len() > spec.bytes as usize
}
