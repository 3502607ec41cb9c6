//! The entries of a fifo, one for each message.
use gb_types::MsgId;

/// A message, whether the layer below brought it up, and whether it was handed up from here. specs/Entries.antt has the entries that a
/// fifo makes; `marks` keeps them.
#[derive(Drop)]
pub struct Entry {
    pub m: MsgId,
    pub here: bool,
    pub given: bool,
}
