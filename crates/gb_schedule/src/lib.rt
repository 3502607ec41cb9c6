//! Schedules as text: the command that each line of a schedule spells. This crate reads no files and runs no cluster. Read
//! `command::Command` first, then `grammar::read_start`, `grammar::read_step` and
//! `grammar::read_other_command`.
#![tactic(auto)]

pub mod command;
pub mod grammar;
pub mod head;
pub mod keys;
mod versions;
mod words;

pub use command::{ClusterStart, Command, Step};
pub use keys::Keys;
