//! What is left of the nodes' records behind the entries that are in the merged run.
use gb_cap::HmacKey;
use gb_cluster::Event;
use gb_frame::reading::decode;
use gb_node::{NodeAnswer, NodeEvent, Sent, Tape, TapeEntry};
use gb_types::limits::NODES;
use gb_types::{NodeId, OutOfMemory, Plan};
use std::alloc::Global;

// Returns the node to which a node sent a packet by this event.
fn destination(event: &NodeEvent) -> Option<NodeId> {
    match event {
        NodeEvent::Pack(to) => Some(*to),
        NodeEvent::Again { to, .. } => Some(*to),
        NodeEvent::Ack(to) => Some(*to),
        _ => None,
    }
}

// Returns true if an entry sent a packet.
fn has_sent(entry: &TapeEntry) -> bool {
    matches!(&entry.answer, NodeAnswer::Sent(Sent::Packet(_)))
}

// Returns the node at which an event of the run happened. `sent` are the destinations of the packets that were sent before it.
fn place_of(event: &Event, sent: &[NodeId]) -> Option<NodeId> {
    match event {
        Event::At(node, _) => Some(*node),
        Event::Arrive(number) => {
            let place = usize::try_from(number.checked_sub(1)?).ok()?;
            sent.get(place).copied()
        }
    }
}

/// Returns, by the nodes' numbers, how many entries of each node's record are in the run of `events`, which was merged from `tapes`.
/// Takes memory for a list of the packets sent. `Err` if memory runs out.
pub fn merged_counts(
    alloc: Global,
    tapes: &[Tape],
    events: &[Event],
) -> Result<[usize; NODES], OutOfMemory> {
    let mut counts = [0usize; NODES];
    let mut sent: Vec<NodeId> = Vec::new(alloc);
    for event in events {
        let Some(node) = place_of(event, &sent) else {
            continue;
        };
        let place = counts[node.index()];
        counts[node.index()] = place.saturating_add(1);
        let Some(tape) = tapes.get(node.index()) else {
            continue;
        };
        let Some(entry) = tape.as_slice().get(place) else {
            continue;
        };
        if has_sent(entry)
            && let Some(to) = destination(&entry.event)
        {
            sent.push(to)?;
        }
    }
    Ok(counts)
}

/// Returns the sender of the packet that the event of `entry` took, as the packet's head names it. `None` if the event took no packet, or
/// took bytes that are no packet under the cluster's key in `plan`.
pub fn sender_of(plan: &Plan, entry: &TapeEntry) -> Option<NodeId> {
    let NodeEvent::Packet(bytes) = &entry.event else {
        return None;
    };
    let key = HmacKey::new(&plan.cluster_key);
    match decode(bytes.as_slice(), &key) {
        Ok(packet) => Some(packet.head().from),
        Err(_) => None,
    }
}

/// Returns true if the answer of one of `entries` is the packet that the event of `taken` took, byte by byte. Returns false if none is,
/// or if that event took no packet.
pub fn is_sent(entries: &[TapeEntry], taken: &TapeEntry) -> bool {
    let NodeEvent::Packet(bytes) = &taken.event else {
        return false;
    };
    for entry in entries {
        if let NodeAnswer::Sent(Sent::Packet(text)) = &entry.answer
            && text.as_slice() == bytes.as_slice()
        {
            return true;
        }
    }
    false
}
