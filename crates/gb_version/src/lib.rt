//! The version of the programs, in one place.
#![tactic(auto)]

/// The version that each program names with `-V`; CHANGELOG.md says what it has.
pub const VERSION: &str = "0.1.0";
