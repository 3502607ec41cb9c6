//! Records on disk: what happened at a node is written as text while it happens, and a packet leaves only once an entry that sent
//! it was written. A `recording::Recording` writes what its recorder takes. A `shared::SharedRecording` is one that a port and the
//! writer of replies have in common, and `written_first::WrittenFirst` is that port. Nothing here opens a file. Read
//! `recording::Recording` first.
#![tactic(auto)]

pub mod gather;
pub mod name;
pub mod recording;
pub mod shared;
pub mod written_first;

pub use gb_record_text::RecordHead;
pub use name::RecordName;
pub use recording::Recording;
pub use shared::SharedRecording;
pub use written_first::WrittenFirst;
