//! Worked doors, as tests: what is asked by HTTP and how it is answered, words of gb_web, conversations, and whole doors with their clients
//! and a node on sockets of this machine. There is nothing here but tests.
#![tactic(auto)]

#[cfg(test)]
mod conversations;
#[cfg(test)]
mod doors;
#[cfg(test)]
mod heads;
#[cfg(test)]
mod pages;
#[cfg(test)]
mod web_words;
