//! The trait of a layer that is told places.
ghost use Rattle.std.specs.Prelude.{◌≡◌, ℕ, ◌≤◌, ◌<◌, ◌++◌, List, length, OnOk};
ghost use Rattle.gb_types.specs.declared.{message.MsgId.MsgId, node.NodeId.NodeId};
ghost use Rattle.gb_layer.specs.declared.call.Call.{Call};
ghost use Rattle.gb_layer.specs.Laws.{StaysAtItsNode};
ghost use Rattle.gb_layer.specs.Machine.{Gives};
ghost use Rattle.gb_layer.specs.PlacedCalls.{told, Names, IsNext, MayTake, told_after};
ghost use Rattle.gb_layer.specs.Sinks.{folded};
ghost use Rattle.gb_layer.specs.Single.{SendsAtMostOne};
ghost use Rattle.gb_layer.specs.Focused.{BringsUpItsOwn};

use crate::effects::Room;
use crate::index::Index;
use crate::placed_call::PlacedCall;
use crate::sink::Sink;
use gb_types::{NodeId, OutOfMemory};

/// A layer of a broadcast at one node, which is told places and hands its effects to a sink.
///
/// The effects of a call, and the state after it, are functions of the state before it and of the call in messages: `gives` and `next`,
/// which gb_layer and gb_fifo define. A layer keeps nothing of a message but what stands at the message's place in its column.
///
/// The caller's conditions: the places of the index are told in their order, each for the first time once those before it were told;
/// the index grows, and no place changes.
pub trait Layer {
    /// The state of the layer.
    ghost State: { Type 0 };

    /// The state, by the messages of the index.
    ghost meaning: { List MsgId → Self → State };

    /// The node where the layer is.
    ghost me: { State → NodeId };

    /// No call was made yet.
    ghost is_fresh: { State → Type 0 };

    /// The state after a call.
    ghost next: { State → Call → State };

    /// The effects of a call.
    ghost gives: { State → Call → Gives };

    /// `knows ms x n w`: the layer was told the first `n` places of the index, and has memory for `w` places.
    ghost knows: { List MsgId → Self → ℕ → ℕ → Type 0 };

    /// Returns the node where the layer is.
    fn me(&self) -> NodeId
        ensures { (ms : List MsgId) → result ≡ me (meaning ms self.now) };

    /// Takes the memory for the first `places` places of the index. If memory is refused, the layer knows what it knew.
    fn whole(&mut self, places: usize) -> Result<(), OutOfMemory>
        ensures meaning { (ms : List MsgId) → meaning ms self.new ≡ meaning ms self.old }
        ensures kept { (ms : List MsgId) (n w : ℕ) → knows ms self.old n w → knows ms self.new n w }
        ensures memory { OnOk result ((ms : List MsgId) (n w : ℕ) → knows ms self.old n w → n ≤ places → knows ms self.new n places) };

    /// Executes a call. Hands its effects to the sink.
    fn take<O: Sink>(&mut self, index: &Index, call: PlacedCall, out: &mut O)
        requires there { Names (λ p. p < length index.now.list.items) call }
        requires known { MayTake (knows index.now.list.items self.old) call }
        requires room { O.takes (O.state index.now.list.items out.old) (gives (meaning index.now.list.items self.old) (told index.now.list.items call)) }
        ensures meaning { meaning index.now.list.items self.new ≡ next (meaning index.now.list.items self.old) (told index.now.list.items call) }
        ensures out { O.state index.now.list.items out.new ≡ folded O.sent O.risen (O.state index.now.list.items out.old) (gives (meaning index.now.list.items self.old) (told index.now.list.items call)) }
        ensures known { (n w : ℕ) → knows index.now.list.items self.old n w → Names (IsNext n w) call → knows index.now.list.items self.new (told_after n call) w };

    /// A layer stays at its node.
    ghost me_stays: { StaysAtItsNode next me };

    /// More messages in the index change neither the state nor what the layer knows.
    ghost grows: { (ms more : List MsgId) (x : Self) (n w : ℕ) → knows ms x n w → (meaning (ms ++ more) x ≡ meaning ms x) × knows (ms ++ more) x n w };
}

/// A layer that says beforehand how much one call may give.
pub trait Bounded: Layer {
    /// Returns the greatest number of sends and of pairs that one call may give.
    fn most(&self) -> Room
        ensures sends { (ms : List MsgId) (n w : ℕ) (c : Call) → Self.knows ms self.now n w → length (Self.gives (Self.meaning ms self.now) c).sends ≤ result.sends }
        ensures ups { (ms : List MsgId) (n w : ℕ) (c : Call) → Self.knows ms self.now n w → length (Self.gives (Self.meaning ms self.now) c).ups ≤ result.ups };
}

/// A layer of which each call sends at most one message.
pub trait Single: Layer {
    ghost sends_one: { SendsAtMostOne Self.gives };
}

/// A layer of which a call about a message brings up that message alone. A relay over such a layer has to look at one place only.
pub trait Focused: Layer {
    ghost brings_own: { BringsUpItsOwn Self.gives };
}
