//! What each call does to each group by itself, among all the groups of a node.
ghost use Rattle.gb_table.specs.OneGroup.{EachGroup, EachCount, StayInOrder};

/// A law of every call on a node's groups: its effect on each group, as that group sees it. A call at an address changes the group
/// with that address and no other. A frame's items reach each group in their order, each group its own. A batch takes of each group
/// a front of what waits there, in order, and takes nothing else. No two groups have one address, and each room keeps its four
/// places. The function does nothing when it runs; its contract is the law.
pub fn each_group()
    ensures each { EachGroup }
    ensures count { EachCount }
    ensures order { StayInOrder }
{}
