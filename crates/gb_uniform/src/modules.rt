//! Laws: which rules are which module of broadcast.
ghost use Rattle.gb_types.specs.declared.kind.Module.TheVariants.{AllAck, Majority};
ghost use Rattle.gb_layer.specs.Common.{BroadcastsAs, DeliversAs};

use crate::all_ack::AllAcked;
use crate::majority_ack::MajorityAcked;
use gb_layer::Rule;

/// A law: over every history, the rule `AllAcked` broadcasts and delivers the messages that all-ack uniform reliable broadcast
/// broadcasts and delivers. So a relay by this rule over `Beb` is that module (`modules::relays` of gb_layer). The function does
/// nothing when it runs; its contract is the law.
pub fn all_ack()
    ensures broadcasts { BroadcastsAs ⟦<AllAcked as Rule>⟧.rules AllAck }
    ensures delivers { DeliversAs ⟦<AllAcked as Rule>⟧.rules AllAck }
{}

/// A law: over every history, the rule `MajorityAcked` broadcasts and delivers the messages that majority-ack uniform reliable
/// broadcast broadcasts and delivers. So a relay by this rule over `Beb` is that module (`modules::relays` of gb_layer). The function
/// does nothing when it runs; its contract is the law.
pub fn majority_ack()
    ensures broadcasts { BroadcastsAs ⟦<MajorityAcked as Rule>⟧.rules Majority }
    ensures delivers { DeliversAs ⟦<MajorityAcked as Rule>⟧.rules Majority }
{}
