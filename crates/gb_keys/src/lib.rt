//! What standard input tells a server, or who audits one: the keys of a cluster, and behind them a line `stop`. Read `keys::read_keys`
//! first, then `keys::keys_of_run`. specs/Keys.antt defines the text of the keys and the key of a run.
#![tactic(auto)]

pub mod keys;
pub mod orders;

pub use keys::{KeyFault, Keys};
pub use orders::Heard;
