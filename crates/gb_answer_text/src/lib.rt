//! The texts of a node's answers, for the lines of gb_sim and of records: what became of a packet, whom a tick noticed, how a stop was
//! answered, and every refusal. specs/AnswerText.antt defines them, and `writing` appends them.
#![tactic(auto)]

pub mod writing;
