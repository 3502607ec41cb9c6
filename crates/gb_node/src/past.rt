//! Laws of a node's past: the past determines the node and its answers.
ghost use Rattle.gb_node.specs.PastLaw.{PastsSay};
ghost use Rattle.gb_node.specs.StepLaw.{AnswersSay};
ghost use Rattle.gb_node.specs.SendLaw.{BatchesAreForOthers, OthersAreInside, PacketsAreReadBack, PacketsSay, ReachedAreOthers, SendersRun, StarvedSays};

use gb_detect::laws::noticed_by_calls;
use gb_frame::laws::what_is_written_is_read;
use gb_slot::history::stands;
use gb_table::each::each_group;

/// A law of every node, whatever happens at it. The events and answers of its past determine its links, its crash detector, its
/// tenants, whether it stopped, and each of its groups. Each group's slot represents the calls that the past has for that group. The
/// function does nothing when it runs; its contract is the law.
pub fn pasts_say()
    ensures { PastsSay }
{
    what_is_written_is_read();
    each_group();
    stands();
    noticed_by_calls();
}

/// A law of every node, whatever happens at it: the events and answers before an answer determine it. A request is answered by the
/// rules of tenants and groups. A packet that is packed is one for another node, and has the first of the items that wait there in
/// each group. A packet that is taken is one for this node from another node, and its frame comes for the first time only once. A tick
/// reports other nodes of the cluster that were not held for crashed before. The function does nothing when it runs; its contract is
/// the law.
pub fn answers_say()
    ensures { AnswersSay }
{
    what_is_written_is_read();
    each_group();
    stands();
    noticed_by_calls();
}

/// A law of every node, whatever happens at it. A node that sends a packet runs. The packet is the one that the event asks for,
/// goes to another node of the cluster, and is read back under the cluster's key. Only a request, or an event that sends, is ever
/// refused for lack of memory. The function does nothing when it runs; its contract is the law.
pub fn packets_say()
    ensures senders { SendersRun }
    ensures packets { PacketsSay }
    ensures reached { ReachedAreOthers }
    ensures batches { BatchesAreForOthers }
    ensures inside { OthersAreInside }
    ensures read { PacketsAreReadBack }
    ensures starved { StarvedSays }
{
    what_is_written_is_read();
}
