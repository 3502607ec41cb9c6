//! Replaying the record of one node by itself, and comparing the answers.
ghost use Rattle.std.specs.Prelude.{◌≡◌, ◌<◌, ◌↔◌, All, IfOk, IfErr, IfSome, IfNone, IsTrue};
ghost use Rattle.gb_cluster.specs.Common.{IsClusterPlan};
ghost use Rattle.gb_merge.specs.Common.{wants_memory, after_entry};
ghost use Rattle.gb_record_text.specs.Laws.{IsAnswered};
ghost use Rattle.gb_audit_run.specs.Replayed.{AreReplayed, IsFirstWrong, IsGiven, IsStarvedAt, IsUnfed};

use gb_cluster::plan::node_plan;
use gb_node::past::packets_say;
use gb_node::{Halted, Node, NodeAnswer, PacketAnswer, Sent, TapeEntry, Ticked};
use gb_record_text::laws::turns_answer;
use gb_types::{NodeId, OutOfMemory, Plan, Refusal, Reply};
use std::alloc::Global;

// Returns true if the answer refuses for lack of memory.
fn is_refused(answer: &NodeAnswer) -> bool
    ensures { result ≡ wants_memory answer.now }
{
    match answer {
        NodeAnswer::Reply(Reply::Refused(Refusal::OutOfMemory)) => true,
        NodeAnswer::Taken(PacketAnswer::Refused(Refusal::OutOfMemory)) => true,
        NodeAnswer::Sent(Sent::Refused(Refusal::OutOfMemory)) => true,
        NodeAnswer::Ticked(Ticked::Refused(Refusal::OutOfMemory)) => true,
        NodeAnswer::Halted(Halted::Refused(Refusal::OutOfMemory)) => true,
        _ => false,
    }
}

// Takes an entry's event. Returns true if the answer is the entry's, and false also if the entry's answer refuses for lack of memory.
// `Err` if the node is refused memory here.
fn is_right(node: &mut Node, entry: &TapeEntry) -> Result<bool, OutOfMemory>
    ensures given { IfOk result (λ right. IsTrue right ↔ IsGiven node.old entry.now) }
    ensures after { IfOk result (λ right. IsTrue right → node.new ≡ after_entry node.old entry.now) }
    ensures answered { IfOk result (λ right. IsTrue right → IsAnswered entry.now) }
    ensures err { IfErr result (λ _. IsUnfed node.old entry.now) }
{
    turns_answer();
    packets_say();
    if is_refused(&entry.answer) {
        return Ok(false);
    }
    let answer = node.take(&entry.event);
    if is_refused(&answer) {
        return Err(OutOfMemory);
    }
    Ok(answer.is(&entry.answer))
}

/// Starts a new node `me` of a cluster of `plan`, gives it the events of `entries` in order, and compares each answer with the entry's.
/// Takes memory for the node. Returns the index of the first entry whose answer is another one, or refuses for lack of memory, from 0.
/// `None` if there is no such entry. `Err` if the node is refused memory here, at an event that the entry's answer does not refuse so.
pub fn first_wrong(
    alloc: Global,
    plan: &Plan,
    me: NodeId,
    entries: &[TapeEntry],
) -> Result<Option<usize>, OutOfMemory>
    requires plan { IsClusterPlan plan.now }
    requires here { me.number < plan.now.nodes }
    ensures some { IfOk result (λ found. IfSome found (IsFirstWrong plan.now me entries.now)) }
    ensures none { IfOk result (λ found. IfNone found (AreReplayed plan.now me entries.now)) }
    ensures answered { IfOk result (λ found. IfNone found (All IsAnswered entries.now)) }
    ensures err { IfErr result (λ _. IsStarvedAt plan.now me entries.now) }
{
    let mut node = Node::start(alloc, &node_plan(plan, me));
    for place in 0..entries.len() {
        let entry = &entries[place];
        if !is_right(&mut node, entry)? {
            return Ok(Some(place));
        }
    }
    Ok(None)
}
