//! One group by itself: no links, frames, packets or other groups. The crate has its events, what each event does to it, which
//! lists of events are legal, what is seen of it, and its laws.
//!
//! This is the model that a hosted group is compared with; no server runs it. `alone` computes it plainly and slowly. Read specs/Alone.antt
//! first, then specs/Laws.antt.
#![tactic(auto)]

pub mod alone;
pub mod event;
pub mod laws;
mod marks;
mod member;
pub mod observation;
mod put;

pub use event::{GroupEvent, GroupStep};
pub use observation::{NodeSeen, Observation};
