// The plans of the hosts in the tests, and lists of two values.
ghost use Rattle.std.specs.Prelude.{◌≡◌, vec_len, IfSome};
ghost use Rattle.gb_host.specs.Common.{IsPlan};

use crate::asking::ADMIN_KEY;
use gb_host::HostPlan;
use gb_types::limits::NODES;
use gb_types::{NodeId, Plan, Version};
use std::alloc::Global;

pub const FIRST: NodeId = NodeId { number: 0 };

pub const SECOND: NodeId = NodeId { number: 1 };

/// Returns the plan of a host for tests: two nodes that send this version of the packet text, with tapes if `tape`, and without
/// recorders.
pub fn two_nodes(version: Version, tape: bool) -> HostPlan
    ensures nodes { result.cluster.nodes ≡ 2 }
    ensures limits { IsPlan result }
{
    HostPlan {
        cluster: Plan {
            nodes: 2,
            versions: [version; NODES],
            silence: 1_000,
            places: 1_024,
            room: 16_345,
            cluster_key: [0x11; 32],
            admin_key: ADMIN_KEY,
        },
        tape,
        ring: false,
    }
}

/// Returns the plan of a host for tests: 32 nodes, the most that there may be, with tapes.
pub fn most_nodes() -> HostPlan
    ensures nodes { result.cluster.nodes ≡ 32 }
    ensures limits { IsPlan result }
{
    HostPlan {
        cluster: Plan {
            nodes: 32,
            versions: [Version::Two; NODES],
            silence: 1_000,
            places: 1_024,
            room: 16_345,
            cluster_key: [0x11; 32],
            admin_key: ADMIN_KEY,
        },
        tape: true,
        ring: false,
    }
}

/// Returns the plan of a host for tests: two nodes whose entries go to recorders, without tapes.
pub fn two_recorded() -> HostPlan
    ensures nodes { result.cluster.nodes ≡ 2 }
    ensures limits { IsPlan result }
{
    HostPlan {
        cluster: two_nodes(Version::One, false).cluster,
        tape: false,
        ring: true,
    }
}

/// Returns a list of these two values, in order. `None` if there is no memory for it.
pub fn pair<T: Drop>(alloc: Global, first: T, second: T) -> Option<Vec<T>>
    ensures { IfSome result (λ list. vec_len list ≡ 2) }
{
    let mut list = Vec::with_capacity(alloc, 2).ok()?;
    list.push_reserved(first);
    list.push_reserved(second);
    Some(list)
}
