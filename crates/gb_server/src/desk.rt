//! What a server tells of itself while it serves: its log, and its status to who asks for it.
use crate::server_log::ServerLog;
use crate::signals::Signals;
use crate::status::StatusServer;
use gb_loop::Ending;
use std::io::Write;
use std::time::Clock;

/// A log with its first two lines, and who answers requests for the status, if anybody does.
#[derive(Drop)]
pub struct Desk {
    pub log: ServerLog,
    pub first: Vec<u8>,
    pub status: Option<StatusServer>,
}

impl Desk {
    /// Writes the first two lines of the server's log to `errors`, unless the log is quiet. Lines that cannot be written are lost.
    pub fn begin<E: Write>(&self, errors: &mut E) {
        self.log.begin(&self.first, errors);
    }

    /// Writes to `errors` what is new for the server's log, unless it is quiet, and answers each client that asks for the status, as
    /// far as it can now. Waits for nobody.
    pub fn look<H: Clock, E: Write>(&mut self, rt: &H, signals: &Signals, errors: &mut E) {
        self.log.look(signals, errors);
        if let Some(status) = self.status.as_mut() {
            status.look(rt, signals.board(), signals.is_over());
        }
    }
}
