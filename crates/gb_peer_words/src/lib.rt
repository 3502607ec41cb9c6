//! The command line of gb_peer: from the words that a shell hands over to what a node is told, by `clap`. What that comes to is
//! gb_peer's. Read `words::read_words` first.
#![tactic(auto)]

pub mod plan;
pub mod words;

pub use plan::{PeerPlan, PeerWords};
