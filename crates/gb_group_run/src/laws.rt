//! A law: what `alone_by_slots` checks of steps is so in every legal list of them. The function has nothing to run.
ghost use Rattle.gb_group_run.specs.Legal.{LegalStepsHaveItems};

/// A law, with nothing to run: in every legal list of steps of a group by itself, each step carries only items that wait, and lets only
/// carried items come and be acknowledged. So `alone_by_slots` has no cause in the steps' items to return an error.
pub fn legal_steps_have_items()
    ensures { LegalStepsHaveItems }
{}
