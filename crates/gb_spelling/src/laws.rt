//! Laws of words and texts: a value that is written can be read again. Each function is a law: its contract is the theorem.
ghost use Rattle.std.specs.Prelude.{◌≡◌, ◌≤◌, Some, decimal};
ghost use Rattle.gb_spelling.specs.Laws.{OneTextOneReply, OneWordOneNumber, OneWordOneKind, OneWordOneGroup, PayloadReadsBack};

use crate::number::read_number;

/// A law: replies with the same text are equal. It does nothing.
pub fn one_text_one_reply()
    ensures { OneTextOneReply }
{}

/// A law: numbers with the same word are equal. It does nothing.
pub fn one_word_one_number()
    ensures { OneWordOneNumber }
{}

/// A law: kinds of broadcast with the same word are equal. It does nothing.
pub fn one_word_one_kind()
    ensures { OneWordOneKind }
{}

/// A law: sets of members with the same word are equal. It does nothing.
pub fn one_word_one_group()
    ensures { OneWordOneGroup }
{}

/// A law: the word that is written for a payload is read as that payload. It does nothing.
pub fn payload_reads_back()
    ensures { PayloadReadsBack }
{}

/// Returns the number that the word spells. A law: if the word is written for `number`, and `number` is at most `max`, this is
/// `number`.
pub fn number_reads_back(word: &[u8], number: u64, max: u64) -> Option<u64>
    requires written { word.now ≡ decimal number }
    requires within { number ≤ max }
    ensures { result ≡ Some number }
{
    read_number(word, max)
}
