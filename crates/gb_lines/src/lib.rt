//! The lines of a text, read from any reader in large pieces. This crate does not interpret the lines. Read
//! `lines::LineBuffer` first.
#![tactic(auto)]

pub mod lines;

pub use lines::{LineBuffer, LinesFault, NextLine};
