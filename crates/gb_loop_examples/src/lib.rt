//! Worked uses of a node's loop, as tests: servers with many clients at once on sockets of this machine. This crate has tests
//! only.
#![tactic(auto)]

#[cfg(test)]
mod addresses;
#[cfg(test)]
mod awaits;
#[cfg(test)]
mod breaks;
#[cfg(test)]
mod clients;
#[cfg(test)]
mod crowds;
#[cfg(test)]
mod denied;
#[cfg(test)]
mod fullest;
#[cfg(test)]
mod limits;
#[cfg(test)]
mod lists;
#[cfg(test)]
mod loops;
#[cfg(test)]
mod pairs;
#[cfg(test)]
mod rates;
#[cfg(test)]
mod rules;
#[cfg(test)]
mod strangers;
#[cfg(test)]
mod ticks;
#[cfg(test)]
mod waiters;
