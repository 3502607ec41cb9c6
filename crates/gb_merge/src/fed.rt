//! Merging tapes in which some entries were refused for lack of memory.
ghost use Rattle.std.specs.Prelude.{◌≡◌, length, IfOk, IfErr};
ghost use Rattle.gb_cluster.specs.Common.{IsClusterPlan};
ghost use Rattle.gb_merge.specs.Fed.{IsMergedFed, IsFedFault, FedIsOneRun, RefusalsLeaveNodes};

use crate::fault::AuditFault;
use crate::merge::merge_entries;
use crate::weave::whole_fed;
use gb_cluster::Event;
use gb_isolation::laws::{ample_runs_feed_all, groups_are_isolated};
use gb_node::Tape;
use gb_node::past::packets_say;
use gb_types::Plan;
use std::alloc::Global;

/// Merges those entries of the tapes that were not refused for lack of memory, as `merge` merges all entries, and returns the
/// events of the cluster. A refused entry changed nothing at its node. `Err` with the faults of `merge`, which speak of the tapes
/// without the refused entries.
pub fn merge_fed(alloc: Global, plan: &Plan, tapes: &[Tape]) -> Result<Vec<Event>, AuditFault>
    requires plan { IsClusterPlan plan.now }
    requires one_each { length tapes.now ≡ plan.now.nodes }
    ensures ok { IfOk result (λ v. IsMergedFed plan.now tapes.now v.items) }
    ensures err { IfErr result (IsFedFault plan.now tapes.now) }
{
    let tapes = whole_fed(alloc, tapes)?;
    merge_entries(alloc, plan, tapes)
}

/// A law: the events that `merge_fed` returns are one run of a cluster, in which each group does what it does by itself, without
/// other tenants, links or frames. Each node ends in this run as the replay of its whole tape. A group that had no request refused
/// for lack of memory at a node got there the replies of the run. The function does nothing when it runs; its contract is the law.
pub fn fed_is_one_run()
    ensures { FedIsOneRun }
{
    groups_are_isolated();
    ample_runs_feed_all();
    packets_say();
}

/// A law: a node that refuses an event for lack of memory stays as it was, whatever the event was. The function does nothing when
/// it runs; its contract is the law.
pub fn refusals_leave_nodes()
    ensures { RefusalsLeaveNodes }
{}
