//! Uniform reliable broadcast: two rules for the layer that relays, which is gb_layer's `relay::Relay`. All-ack and majority-ack broadcast
//! and deliver what their modules in gb_layer's specs/Modules.antt define; `modules` says so. Read `all_ack::AllAcked` first.
#![tactic(auto)]

pub mod all_ack;
pub mod majority_ack;
pub mod modules;

pub use all_ack::AllAcked;
pub use majority_ack::MajorityAcked;
