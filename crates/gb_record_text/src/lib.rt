//! The text of a node's record: a first line, and a line for each entry of its tape, written exactly and read back exactly. A record
//! may have parts, one for each start of its node. Read `writing::put_entry` and `reading::read_entry`, then `reader::read_record` and
//! `part::join`; specs/RecordText.antt has the text.
#![tactic(auto)]

mod digits;
mod fits;
pub mod head;
pub mod laws;
mod log;
pub mod part;
pub mod part_head;
pub mod reader;
pub mod reading;
pub mod record;
pub mod writing;

pub use head::RecordHead;
pub use part::Part;
pub use part_head::{PartFault, PartHead};
pub use reader::{ReadFault, Record};
pub use record::WriteFault;
