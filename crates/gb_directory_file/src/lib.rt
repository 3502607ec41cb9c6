//! Directory files: which cluster a tenant lives in, and where the sessions of its nodes are. Read `read::sessions_of` first.
#![tactic(auto)]

pub mod fault;
pub mod read;
pub mod words;

pub use fault::{DirectoryFault, TextFault};
