//! Laws of records: what a line or a text says is one thing alone. Each function is a law: its contract is the theorem.
ghost use Rattle.gb_record_text.specs.Laws.{TurnsAnswer, OneLineOneEntry, SameLinesSameEntries, OneTextOneRecord, OneLineOnePart};

use gb_spelling::laws::{one_text_one_reply, one_word_one_kind};

/// Each turn of a node answers its kind of event: a request by a reply, bytes that came by what became of them, and so on. So each
/// entry of each tape has an answer to its event.
pub fn turns_answer()
    ensures { TurnsAnswer }
{}

/// Two entries with one line are equal, and are of one node, if each has an answer to its event.
pub fn one_line_one_entry()
    ensures { OneLineOneEntry }
{
    one_text_one_reply();
    one_word_one_kind();
}

/// Entries with the same lines are the same, if each has an answer to its event.
pub fn same_lines_same_entries()
    ensures { SameLinesSameEntries }
{
    one_text_one_reply();
    one_word_one_kind();
}

/// Two records with one text say the same, if each of their entries has an answer to its event.
pub fn one_text_one_record()
    ensures { OneTextOneRecord }
{
    one_text_one_reply();
    one_word_one_kind();
}

/// Two parts with one first line say the same there.
pub fn one_line_one_part()
    ensures { OneLineOnePart }
{}
