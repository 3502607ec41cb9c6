//! The connections of a loop as a whole: who is looked at next, whose wait is tried again, and who is held.
use crate::lines::Lines;
use crate::meters::Meters;
use crate::rates::RateLimits;
use std::alloc::Global;
use std::collections::VecDeque;

/// How many places are kept for administrators, beside those of all other connections.
pub const KEPT: u64 = 2;

const _: () = prove!(KEPT == 2);

/// The connections of a loop as a whole.
#[derive(Drop)]
pub struct Crowd {
    /// Those that are looked at next.
    pub lines: Lines,
    /// Those whose wait is tried again.
    pub woken: VecDeque<usize>,
    /// Those whose tenants asked more than they may, and from when on the first of them may ask again, in microseconds.
    pub held: VecDeque<usize>,
    pub held_until: u64,
    pub meters: Meters,
    /// How many of the places that are kept for administrators are taken.
    pub kept: u64,
}

impl Crowd {
    /// Returns a crowd of no connection.
    pub fn new(alloc: Global, limits: RateLimits) -> Crowd {
        Crowd {
            lines: Lines::new(alloc),
            woken: VecDeque::new(alloc),
            held: VecDeque::new(alloc),
            held_until: u64::MAX,
            meters: Meters::new(alloc, limits),
            kept: 0,
        }
    }

    /// Returns true if there is something to do at once.
    pub fn is_busy(&self) -> bool {
        !self.lines.is_empty() || !self.woken.is_empty()
    }

    /// Returns when there is something to do if nothing happens before, in microseconds.
    pub fn due_at(&self) -> u64 {
        self.held_until
    }
}
