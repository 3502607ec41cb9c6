//! A run of a cluster as a schedule for gb_sim, with the answers that gb_sim gives. Read `replay::replay` first.
#![tactic(auto)]

pub mod complaint;
pub mod difference;
pub mod laws;
pub mod lines;
pub mod replay;
pub mod steps;

pub use replay::ReplayFault;
