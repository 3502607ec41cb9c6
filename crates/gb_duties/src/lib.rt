//! Duties and agreement: what each node of a group alone has done for the other members, and which messages the logs of a
//! settled group have in common. These are laws, with no code, over every legal list of events and for every kind.
//!
//! Nothing here says that something will happen: a settled group is one in which it has happened. Read specs/Duties.antt first,
//! then specs/Agreement.antt.
#![tactic(auto)]

pub mod examples;
pub mod laws;
