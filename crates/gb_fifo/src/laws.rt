//! Laws of first-in first-out order over any layer. The fifo has the states, steps and effects that specs/FifoMachine.antt
//! defines, so the lemmas on these are cited. The functions have nothing to run.
ghost use Rattle.std.specs.Prelude.{◌≡◌, [], List};
ghost use Rattle.gb_layer.specs.declared.call.Call.{Call};
ghost use Rattle.gb_layer.specs.Common.{ComesFromItsOrigin, HandsUpWhatWasHandedIn, HandsUpOnce, after, all_ups, messages};
ghost use Rattle.gb_fifo.specs.FifoMachine.{FifoState, IsNew};
ghost use Rattle.gb_fifo.specs.Order.{RunsFromOne, ordered_after, in_order};

use crate::fifo::Fifo;
use gb_layer::Layer;

/// A law of a fifo over any layer: from a state in which no message was handed in, after every list of calls, whatever the layer
/// below brings up, the messages of each origin that the fifo has handed up are 1, 2, 3, .. without a gap.
pub fn one_two_three<L: Layer>()
    ensures { (s : FifoState L.State) (past : List Call) → s.entries ≡ []
        → RunsFromOne (messages (all_ups ⟦<Fifo<L> as Layer>⟧.next ⟦<Fifo<L> as Layer>⟧.gives s past)) }
{}

/// A law of a fifo over a layer that, from this state of it on, hands up nothing but what was handed in. From a state of the fifo in
/// which no message was handed in, over every list of calls, the messages that it hands up are those that the layer below brings up,
/// put into the order of each origin (`in_order`). A call hands up what its own messages from below complete, given all that came
/// from below before. It sends what the layer below sends, over any layer.
pub fn in_origin_order<L: Layer>()
    ensures up { (s : FifoState L.State) → HandsUpWhatWasHandedIn L.next L.gives (λ t. t ≡ s.lower) → s.entries ≡ [] → (past : List Call) (c : Call)
        → messages (⟦<Fifo<L> as Layer>⟧.gives (after ⟦<Fifo<L> as Layer>⟧.next s past) c).ups
        ≡ ordered_after (messages (all_ups L.next L.gives s.lower past)) (messages (L.gives (after L.next s.lower past) c).ups) }
    ensures out { (s : FifoState L.State) (past : List Call) (c : Call)
        → (⟦<Fifo<L> as Layer>⟧.gives (after ⟦<Fifo<L> as Layer>⟧.next s past) c).sends ≡ (L.gives (after L.next s.lower past) c).sends }
    ensures log { (s : FifoState L.State) → HandsUpWhatWasHandedIn L.next L.gives (λ t. t ≡ s.lower) → s.entries ≡ [] → (past : List Call)
        → messages (all_ups ⟦<Fifo<L> as Layer>⟧.next ⟦<Fifo<L> as Layer>⟧.gives s past) ≡ in_order (messages (all_ups L.next L.gives s.lower past)) }
{}

/// A law of a fifo over any layer: each message that comes up came from its origin. From a state in which no message was handed in,
/// each message that comes up was handed in, and none comes up twice.
pub fn integrity<L: Layer>()
    ensures origin { ComesFromItsOrigin ⟦<Fifo<L> as Layer>⟧.gives }
    ensures handed_in { HandsUpWhatWasHandedIn ⟦<Fifo<L> as Layer>⟧.next ⟦<Fifo<L> as Layer>⟧.gives (IsNew (λ _. Unit {0})) }
    ensures once { HandsUpOnce ⟦<Fifo<L> as Layer>⟧.next ⟦<Fifo<L> as Layer>⟧.gives (IsNew (λ _. Unit {0})) ⟦<Fifo<L> as Layer>⟧.me }
{}
