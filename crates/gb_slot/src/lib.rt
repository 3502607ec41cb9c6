//! One group at one node: its phase, its broadcast, what it delivered, and what waits to be sent.
//!
//! A slot knows no other group, no link and no frame. It answers commands. It receives items from other nodes, crash notices and
//! acknowledgements. It holds the items that wait for other nodes. Read `slot::Slot` first; `history` says which histories a slot
//! stands for.
#![tactic(auto)]

mod broadcast;
pub mod history;
pub mod slot;
pub mod store;
mod window;

pub use slot::Slot;
pub use store::Store;
