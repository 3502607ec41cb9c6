//! The calls of a seat, as memory holds them.
ghost use Rattle.std.specs.Prelude.{◌≡◌, []};

use gb_node::NodeStep;
use std::alloc::Global;
use std::marker::Model;

/// A seat's calls. Contracts see the list, the oldest first.
#[derive(Drop)]
pub struct CallList {
    entries: Vec<NodeStep>,
}

impl Model for CallList {
    ghost use Rattle.std.specs.{Coded.codes, Coded.coded_ℕ, Ordering.nat_cmp, Prelude.List};
    ghost use Rattle.std.specs.FinSet as set;
    ghost use Rattle.gb_node.specs.declared.step.NodeStep.{NodeStep};

    ghost Value = { List NodeStep };

    ghost coded = { Prim.hlevel (codes, set.code {R = nat_cmp} coded_ℕ) };

    ghost view = { λ t. t.entries.items };
}

impl CallList {
    /// Returns an empty list.
    pub fn new(alloc: Global) -> CallList
        ensures { result ≡ [] }
    {
        CallList {
            entries: Vec::new(alloc),
        }
    }

    /// Returns the entries, in order.
    pub fn as_slice(&self) -> &[NodeStep]
        ensures { result.now ≡ self.now }
    {
        self.entries.as_slice()
    }
}

impl From<Vec<NodeStep>> for CallList {
    ghost from_gives = { λ v t. t ≡ v.items };

    fn from(entries: Vec<NodeStep>) -> CallList {
        CallList { entries }
    }
}
