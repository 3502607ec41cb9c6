//! What an audited run shows of one group, beside what the group is alone: the equality of the main theorem, computed for the run that the
//! nodes recorded. Read `compare::compare` first, then specs/Compared.antt.
#![tactic(auto)]

pub mod compare;
pub mod lines;
pub mod same;

pub use compare::GroupSeen;
