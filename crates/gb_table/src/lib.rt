//! What a node answers to requests: its tenants, and its groups under their addresses. A request comes with a token, and this
//! crate decides what the token allows. There is no link and no clock. Read `table::Table` first.
//!
//! `groups::Groups` has all groups at one node, without tokens and tenants: rooms with four places each, groups under their
//! addresses at these places, and the packing of waiting items into batches. Its calls stand in `groups`, `lookup` (where a group is),
//! `listing` and `packing` (the walk). `places` and `index` have what they ask of its parts.
#![tactic(auto)]

pub mod each;
pub mod group_row;
pub mod groups;
mod index;
pub mod listing;
mod lookup;
pub mod need;
mod packing;
pub mod place_set;
mod places;
pub mod table;
pub mod tenants;

pub use group_row::GroupRow;
pub use groups::Groups;
pub use listing::Listing;
pub use table::Table;
