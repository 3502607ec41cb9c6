//! A node with its port, and its clients, as values that a loop drives. `mail::Mail` is the node with its port: every call and every
//! packet goes through it. `client::Client` is a client's session with the replies that are not sent yet. `settle` is what is done before
//! replies leave, `operate` answers an administrator, `hint` says what the bytes of a packet say before it is known that they are one,
//! `counts` which figures a call counts, `admitted` which requests, and `misfits` whether what comes from a node's address fits. Read
//! `mail` and `client` first. Nothing here waits for the system; gb_loop does.
#![tactic(auto)]

pub mod admitted;
pub mod client;
mod counts;
pub mod hint;
pub mod mail;
pub mod misfits;
mod operate;
pub mod settle;

pub use admitted::Admitted;
pub use client::{Client, Turn, Way};
pub use mail::{Mail, Parts};
pub use misfits::NodeMisfit;
pub use settle::{Settle, Unsettled};
