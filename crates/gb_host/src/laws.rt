//! Laws of nodes at which nothing happened.
ghost use Rattle.gb_host.specs.Nothing.{NothingChanges};

/// A law of every node: what is no event by its answer leaves the node as it was. So what happened at a node may leave it out. The
/// function does nothing when it runs; its contract is the law.
pub fn nothing_changes()
    ensures { NothingChanges }
{}
