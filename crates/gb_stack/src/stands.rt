//! Laws: the histories that a stack stands for. They have no code.
ghost use Rattle.gb_layer.specs.Common.{StaysAtItsNode, ComesFromItsOrigin, SendsWhatWasHandedIn, HandsUpWhatWasHandedIn, HandsUpOnce, HandsUpEachOnce, SendsOnce, NoticesOnce};
ghost use Rattle.gb_stack.specs.StackState.{stack_next, stack_gives, stack_me, IsUntoldStack};
ghost use Rattle.gb_stack.specs.Stands.{NewStackStands, CalledStackStands, HandsUpWhatIsDelivered, SendsWhatIsBroadcast, HandsUpTheLog, LogGrows, StartedHandsUpEachOnce};

/// A law: the state of a stack stands for the history of its calls. A new stack stands for the notices that it starts with, and a call
/// adds itself. For each lawful history that a stack stands for, what a call hands up is what the kind delivers then, what it sends is
/// what the kind broadcasts then, and all that came up is the kind's log. It does nothing.
pub fn stands()
    ensures new { NewStackStands }
    ensures called { CalledStackStands }
    ensures up { HandsUpWhatIsDelivered }
    ensures out { SendsWhatIsBroadcast }
    ensures log { HandsUpTheLog }
    ensures grows { LogGrows }
{}

/// A law: no message comes up twice from a stack that `Stack::new` returned. It does nothing.
pub fn starts()
    ensures { StartedHandsUpEachOnce }
{}

/// The laws of layers hold of each stack. It stays at its node. A pair that comes up is from its message's origin. What it sends, and
/// what comes up, was handed in. No message comes up twice and none is sent twice, if the caller keeps its conditions. A second notice
/// of a node has no effect. It does nothing.
pub fn laws()
    ensures stays { StaysAtItsNode stack_next stack_me }
    ensures own { ComesFromItsOrigin stack_gives }
    ensures sends { SendsWhatWasHandedIn stack_next stack_gives IsUntoldStack }
    ensures ups { HandsUpWhatWasHandedIn stack_next stack_gives IsUntoldStack }
    ensures up_once { HandsUpOnce stack_next stack_gives IsUntoldStack stack_me }
    ensures each_once { HandsUpEachOnce stack_next stack_gives IsUntoldStack stack_me }
    ensures sent_once { SendsOnce stack_next stack_gives IsUntoldStack stack_me }
    ensures noticed_once { NoticesOnce stack_next stack_gives IsUntoldStack }
{}
