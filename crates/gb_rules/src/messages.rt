//! Messages with their payloads, as a history has them.
ghost use Rattle.std.specs.Prelude.{◌≡◌, ◌+◌, ◌++◌, ◌∷◌, map, length, IfOk, OnOk};
ghost use Rattle.gb_rules.specs.History as history;
ghost use Rattle.gb_rules.specs.Messages as words;

use crate::call::GroupCall;
use gb_types::{Entries, Entry, MsgId, NodeId, OutOfMemory, Payload};
use std::alloc::Global;

/// Returns true if the message is among the entries.
fn has(entries: &[Entry], m: MsgId) -> bool
    ensures { result ≡ words.has entries.now m }
{
    match entries {
        [] => false,
        [x, others @ ..] => x.message() == m || has(others, m),
    }
}

/// Returns the payload of the first entry of the message. It is empty if there is none.
fn payload_in(entries: &[Entry], m: MsgId) -> &[u8]
    ensures { result.now ≡ words.payload_in entries.entry.now m }
{
    match entries {
        [] => &[],
        [x, others @ ..] => {
            if x.message() == m {
                x.payload.as_slice()
            } else {
                payload_in(others, m)
            }
        }
    }
}

/// Returns `count` plus the length of a payload. `Err` if the sum exceeds 32 bits.
fn add_bytes(count: u32, payload: &[u8]) -> Result<u32, OutOfMemory>
    ensures { IfOk result (λ n. n ≡ length payload.now + count) }
{
    let Ok(more) = u32::try_from(payload.len()) else {
        return Err(OutOfMemory);
    };
    match more.checked_add(count) {
        Some(sum) => Ok(sum),
        None => Err(OutOfMemory),
    }
}

/// Returns the number of payload bytes of an origin's messages. `Err` if it exceeds 32 bits.
pub(crate) fn bytes_of(entries: &[Entry], origin: NodeId) -> Result<u32, OutOfMemory>
    ensures { IfOk result (λ n. n ≡ words.bytes_of origin.number entries.now) }
{
    match entries {
        [] => Ok(0),
        [x, others @ ..] => {
            let rest = bytes_of(others, origin)?;
            if x.origin == origin {
                add_bytes(rest, x.payload.as_slice())
            } else {
                Ok(rest)
            }
        }
    }
}

/// Returns the messages with their payloads.
pub(crate) fn entries_in(
    alloc: Global,
    known: &[Entry],
    found: &[MsgId],
) -> Result<Entries, OutOfMemory>
    ensures { IfOk result (λ e. e ≡ map (words.entry_in known.now) found.now) }
{
    let mut entries = Entries::new(alloc);
    for m in found {
        let payload = Payload::from_slice(alloc, payload_in(known, *m))?;
        entries.push(Entry {
            origin: m.origin,
            seq: m.seq,
            payload,
        })?;
    }
    Ok(entries)
}

/// Appends a copy of the entry, if there is no entry of its message.
fn add_new(alloc: Global, entries: &mut Entries, x: &Entry) -> Result<(), OutOfMemory>
    ensures { OnOk result (entries.new ≡ words.with_new entries.old x.now) }
{
    if !has(entries.as_slice(), x.message()) {
        entries.push(x.duplicate(alloc)?)?;
    }
    Ok(())
}

/// Returns the messages that these calls name, each once, in the order in which they were first named, with the payloads that they
/// had then. `told` has the newest call first. `Err` if memory is refused.
#[tactic(auto, unfolding(crate::specs::History::known))]
pub fn known(alloc: Global, told: &[GroupCall]) -> Result<Entries, OutOfMemory>
    ensures { IfOk result (λ e. e ≡ history.known told.now) }
{
    match told {
        [] => Ok(Entries::new(alloc)),
        [call, past @ ..] => {
            let mut entries = known(alloc, past)?;
            match call {
                GroupCall::Own(x) => add_new(alloc, &mut entries, x)?,
                GroupCall::Other(_, x) => add_new(alloc, &mut entries, x)?,
                GroupCall::Crashed(_) => {}
            }
            Ok(entries)
        }
    }
}
