//! Laws: which rules are which module of broadcast.
ghost use Rattle.gb_types.specs.declared.kind.Module.TheVariants.{Lazy, Eager};
ghost use Rattle.gb_layer.specs.Common.{BroadcastsAs, DeliversAs};

use crate::eager::Eagerly;
use crate::lazy::Lazily;
use gb_layer::Rule;

/// A law: over every history, the rule `Lazily` broadcasts and delivers the messages that lazy reliable broadcast broadcasts and
/// delivers. So a relay by this rule over `Beb` is that module (`modules::relays` of gb_layer). The function does nothing when it
/// runs; its contract is the law.
pub fn lazy()
    ensures broadcasts { BroadcastsAs ⟦<Lazily as Rule>⟧.rules Lazy }
    ensures delivers { DeliversAs ⟦<Lazily as Rule>⟧.rules Lazy }
{}

/// A law: over every history, the rule `Eagerly` broadcasts and delivers the messages that eager reliable broadcast broadcasts and
/// delivers. So a relay by this rule over `Beb` is that module (`modules::relays` of gb_layer). The function does nothing when it
/// runs; its contract is the law.
pub fn eager()
    ensures broadcasts { BroadcastsAs ⟦<Eagerly as Rule>⟧.rules Eager }
    ensures delivers { DeliversAs ⟦<Eagerly as Rule>⟧.rules Eager }
{}
