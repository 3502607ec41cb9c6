//! The words that lines of a schedule begin with.
ghost use Rattle.std.specs.Prelude.{◌≡◌, ◌↔◌, Some};
ghost use Rattle.gb_schedule.specs.declared.head.Head.{Head};
ghost use Rattle.gb_schedule.specs.Head.{head_word};

use gb_spelling::{CommandHead, command_words};

/// The first word of a line.
#[derive(Clone, Copy)]
pub enum Head {
    Cluster,
    /// `cluster2`: a cluster each of whose nodes sends its own version.
    Cluster2,
    Tenant,
    /// The head of a command in a group.
    Group(CommandHead),
    Forge,
    Pack,
    Again,
    Ack,
    Arrive,
    Noise,
    Tick,
    Stop,
}

/// Returns the word for a head.
fn word_of(head: Head) -> &'static [u8]
    ensures { result.now ≡ head_word head }
{
    match head {
        Head::Cluster => b"cluster",
        Head::Cluster2 => b"cluster2",
        Head::Tenant => b"tenant",
        Head::Group(head) => command_words::head_word(head),
        Head::Forge => b"forge",
        Head::Pack => b"pack",
        Head::Again => b"again",
        Head::Ack => b"ack",
        Head::Arrive => b"arrive",
        Head::Noise => b"noise",
        Head::Tick => b"tick",
        Head::Stop => b"stop",
    }
}

/// Returns the only head that a word can name, by its first two letters, or by its first and its last. `None` if it can name none.
fn head_like(word: &[u8]) -> Option<Head>
    ensures { (head : Head) → word.now ≡ head_word head → result ≡ Some head }
{
    match word {
        [b'c', .., b'2'] => Some(Head::Cluster2),
        [b'c', ..] => Some(Head::Cluster),
        [b't', b'e', ..] => Some(Head::Tenant),
        [b't', ..] => Some(Head::Tick),
        [b's', b't', ..] => Some(Head::Stop),
        [b'f', b'o', ..] => Some(Head::Forge),
        [b'p', ..] => Some(Head::Pack),
        [b'a', b'g', ..] => Some(Head::Again),
        [b'a', b'c', ..] => Some(Head::Ack),
        [b'a', ..] => Some(Head::Arrive),
        [b'n', ..] => Some(Head::Noise),
        _ => Some(Head::Group(command_words::read_head(word)?)),
    }
}

/// Returns the head of a schedule's line that its first word names. `None` if the word names no head.
pub fn read_head(word: &[u8]) -> Option<Head>
    ensures { (head : Head) → (result ≡ Some head) ↔ (word.now ≡ head_word head) }
{
    match head_like(word) {
        Some(head) if word == word_of(head) => Some(head),
        _ => None,
    }
}
