//! How long a connection may take.
ghost use Rattle.std.specs.Prelude.{◌≡◌};
ghost use Rattle.gb_loop.specs.Timers.{is_late, new_timer, timer_behind};

/// How long connections may take, in microseconds.
#[derive(Clone, Copy, Debug, PartialEq, Eq)]
pub struct Patience {
    /// For a whole message, while nothing that it asked was admitted.
    pub first: u64,
    /// For the rest of a message whose beginning came.
    pub later: u64,
    /// In which nothing moves; 0: for ever.
    pub idle: u64,
}

/// How far a connection is.
#[derive(Clone, Copy, Debug, PartialEq, Eq)]
pub enum Stage {
    /// Nothing that it asked was admitted.
    First,
    /// Something was admitted, and no message has begun.
    Between,
    /// Something was admitted, and the beginning of a message came.
    Begun,
}

/// What a turn brought.
#[derive(Clone, Copy, Debug, PartialEq, Eq)]
pub enum Heard {
    /// Neither bytes came, nor was a message answered.
    Nothing,
    /// Bytes came, and no message was answered.
    Bytes,
    /// A message was answered, or waits for something to fetch.
    Whole,
}

/// The times of a connection, in microseconds.
#[derive(Clone, Copy, Debug, PartialEq, Eq)]
pub struct Timer {
    pub stage: Stage,
    /// When it came, or when its last message was answered; at the stage `Begun` when that message began.
    pub since: u64,
    /// When it last did something.
    pub moved_at: u64,
}

impl Timer {
    /// Returns the times of a connection that came at the time `now`.
    pub fn new(now: u64) -> Timer
        ensures { result ≡ new_timer now }
    {
        Timer {
            stage: Stage::First,
            since: now,
            moved_at: now,
        }
    }

    /// Notes at the time `now` what a turn brought. `is_known` says that something was admitted in it, and `is_begun` that the beginning
    /// of a message is there.
    pub fn hear(&mut self, now: u64, brought: Heard, is_known: bool, is_begun: bool)
        ensures { self.new ≡ timer_behind self.old now brought is_known is_begun }
    {
        let is_whole = brought == Heard::Whole;
        if brought != Heard::Nothing {
            self.moved_at = now;
        }
        if is_whole || (self.stage == Stage::Between && is_begun) {
            self.since = now;
        }
        if self.stage != Stage::First || is_known {
            self.stage = if is_begun {
                Stage::Begun
            } else {
                Stage::Between
            };
        }
    }

    /// Returns true if the connection takes longer than is allowed at the time `now`: for its first message that is admitted, for the
    /// rest of a later one, or without anything that moves.
    pub fn is_late(&self, now: u64, patience: &Patience) -> bool
        ensures { result ≡ is_late self.now now patience.now }
    {
        let waited = now.saturating_sub(self.since);
        let still = now.saturating_sub(self.moved_at);
        match self.stage {
            Stage::First => waited >= patience.first,
            Stage::Between => patience.idle > 0 && still >= patience.idle,
            Stage::Begun => waited >= patience.later
                || (patience.idle > 0 && still >= patience.idle),
        }
    }
}
