//! The name of a record.
use std::marker::Brand;

/// A record, by a name that nothing else has. It knows the book of the entries that were written, so that who has seen some of them
/// and the recording speak of one.
pub trait RecordName {
    ghost use Rattle.gb_host.specs.Common.{BookName};

    ghost book: { BookName };
}

impl RecordName for Brand {
    ghost use Rattle.gb_host.specs.Common.{no_book};

    ghost book = { no_book };
}
