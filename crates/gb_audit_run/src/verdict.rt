//! The exit status of an audit.
use crate::audit::{Audited, Verdict};

/// Returns the exit status of an audit: 0 if all entries of all records are one run (`Whole`), 3 if only the first entries of the records
/// are one run (`Left`), and 1 if the audit found no run (`None`) or refused what is left (`Refused`).
pub fn status_of(found: &Option<Audited>) -> u8 {
    match found {
        None => 1,
        Some(run) => match run.verdict {
            Verdict::Whole => 0,
            Verdict::Left => 3,
            Verdict::Refused => 1,
        },
    }
}
