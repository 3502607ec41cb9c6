//! Runs a schedule of a cluster: reads it from any reader, and writes one line for each event. Read
//! `simulate::simulate` first, then `outcome` for how it ends, and `obey::answer_line` for what one line does.
#![tactic(auto)]

pub mod answer_text;
pub mod complaint;
pub mod laws;
pub mod obey;
pub mod outcome;
pub mod simulate;
pub mod writing;

pub use outcome::{BadLine, SimEnd, SimFault};
