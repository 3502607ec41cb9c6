//! A conversation of a visitor with a node: each text of the visitor is one request, and each reply is one text for the visitor.
ghost use Rattle.std.specs.Prelude.{◌≡◌, ◌≤◌, List, length, OnOk, OnErr, IfOk};
ghost use Rattle.gb_session.specs.declared.grammar.TheConstants.{BODY};
ghost use Rattle.gb_door.specs.Talk.{Answers, BreaksOff, Exchange, Talks};

use crate::leave::Leave;

/// Somebody who hands over texts of requests, and is told the texts of replies.
pub trait Visitor {
    ghost use Rattle.std.specs.Prelude.{ℕ, List};

    // A text that it may hand over, and what that leaves of it.
    ghost hears: { Self → List ℕ → Self → Type 0 };
    // What it leaves of it that a text was told.
    ghost tells: { Self → List ℕ → Self → Type 0 };

    /// Waits for the text that the visitor hands over next, and returns it: at most `BODY` bytes. `Err` with why the visitor's connection
    /// ends.
    fn next(&mut self) -> Result<Vec<u8>, Leave>
        ensures hears { IfOk result (λ text. hears self.old text.items self.new) }
        ensures short { IfOk result (λ text. length text.items ≤ BODY) };
    /// Tells the visitor a text. `Err` with why its connection ends; then the text may be told or not.
    fn tell(&mut self, text: &[u8]) -> Result<(), Leave>
        ensures { OnOk result (tells self.old text.now self.new) };
}

/// A node that replies to requests, one after the other.
pub trait Desk {
    ghost use Rattle.std.specs.Prelude.{ℕ, List};

    // What the reply to a request may be, and what it leaves.
    ghost asks: { Self → List ℕ → List ℕ → Self → Type 0 };

    /// Asks the node what `text`, the text of a request, asks, waits, and returns the text of its reply. `Err` with why there is no
    /// reply.
    fn ask(&mut self, text: &[u8]) -> Result<Vec<u8>, Leave>
        requires { length text.now ≤ BODY }
        ensures { IfOk result (λ reply. asks self.old text.now reply.items self.new) };
}

// Asks what the visitor hands over, and tells it the reply.
fn exchange<V: Visitor, D: Desk>(visitor: &mut V, desk: &mut D) -> Result<(), Leave>
    ensures whole { OnOk result ((one : Exchange) × Answers V.hears V.tells D.asks visitor.old desk.old one visitor.new desk.new) }
    ensures broken { OnErr result (BreaksOff V.hears D.asks visitor.old desk.old visitor.new desk.new) }
{
    let text = match visitor.next() {
        Ok(text) => text,
        Err(leave) => return Err(leave),
    };
    let reply = match desk.ask(&text) {
        Ok(reply) => reply,
        Err(leave) => return Err(leave),
    };
    match visitor.tell(&reply) {
        Ok(()) => Ok(()),
        Err(leave) => Err(leave),
    }
}

/// Takes a text from the visitor, asks it at the desk, tells the visitor the reply, and so on, until one of these fails. Returns why it
/// ended. Texts are asked in their order and nothing else is asked, and each reply is told before the next text is taken. Only the last
/// text may have no reply, or a reply that was not told.
pub fn converse<V: Visitor, D: Desk>(visitor: &mut V, desk: &mut D) -> Leave
    ensures { (talk : List Exchange) × (v : V) × (d : D) × Talks V.hears V.tells D.asks visitor.old desk.old talk v d × BreaksOff V.hears D.asks v d visitor.new desk.new }
{
    for _ in 0..u64::MAX {
        if let Err(leave) = exchange(visitor, desk) {
            return leave;
        }
    }
    Leave::Silent
}
