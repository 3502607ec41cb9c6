//! Worked hosts and workers, as tests: hosts with callers in threads of their own, and their ends; and pumps over rings, sockets
//! and failing ports, and tickers, each in its own thread. This crate has tests only.
#![tactic(auto)]

#[cfg(test)]
mod agreement;
#[cfg(test)]
mod asking;
#[cfg(test)]
mod day;
#[cfg(test)]
mod host_day;
#[cfg(test)]
mod host_faults;
#[cfg(test)]
mod host_locks;
#[cfg(test)]
mod long;
#[cfg(test)]
mod one_node;
#[cfg(test)]
mod pasts;
#[cfg(test)]
mod plans;
#[cfg(test)]
mod recorded;
#[cfg(test)]
mod roles;
#[cfg(test)]
mod scenes;
