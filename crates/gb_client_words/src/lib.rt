//! The command line of the client: from the words that a shell hands over to a plan, by `clap`. What a plan asks for, and
//! what comes of it, is gb_client's. Read `words::plan_of` first.
#![tactic(auto)]

pub mod fault;
pub mod words;

pub use words::{Lookup, Plan};
