//! What a run of a cluster shows of one group, and the theorem that this is what the group shows alone, whatever happens to other groups
//! and whatever batches hold. Read specs/Project.antt first, then specs/Isolation.antt.
#![tactic(auto)]

pub mod laws;
