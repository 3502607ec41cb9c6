//! The entries of a log as text, appended one after the other, with their payloads a block of digits at a time.
ghost use Rattle.std.specs.Prelude.{◌≡◌, ◌++◌, codes, decimal, OnOk};
ghost use Rattle.std.specs.List.{flat_map};
ghost use Rattle.gb_spelling.specs.Common.{entry_text, reply_spelling};

use crate::digits::put_payload;
use gb_spelling::number::put_number;
use gb_spelling::reply_text;
use gb_types::memory::put_bytes;
use gb_types::{Entry, OutOfMemory, Reply};

// Appends a colon and then a number.
fn put_colon(out: &mut Vec<u8>, number: u64) -> Result<(), OutOfMemory>
    ensures { OnOk result (out.new.items ≡ out.old.items ++ (codes ":" ++ decimal number)) }
{
    out.push(b':')?;
    put_number(out, number)
}

// Appends ` ORIGIN:SEQ:PAYLOAD`.
fn put_entry(out: &mut Vec<u8>, entry: &Entry) -> Result<(), OutOfMemory>
    ensures { OnOk result (out.new.items ≡ out.old.items ++ (codes " " ++ entry_text entry.now)) }
{
    out.push(b' ')?;
    put_number(out, u64::from(entry.origin.number))?;
    put_colon(out, u64::from(entry.seq))?;
    out.push(b':')?;
    put_payload(out, entry.payload.as_slice())
}

// Appends entries, each after a space.
fn put_entries(out: &mut Vec<u8>, entries: &[Entry]) -> Result<(), OutOfMemory>
    ensures { OnOk result (out.new.items ≡ out.old.items ++ flat_map (λ e. codes " " ++ entry_text e) entries.now) }
{
    for entry in entries {
        put_entry(out, entry)?;
    }
    Ok(())
}

// Appends `log COUNT` and the entries.
fn put_log(out: &mut Vec<u8>, entries: &[Entry]) -> Result<(), OutOfMemory>
    ensures { OnOk result (out.new.items ≡ out.old.items ++ reply_spelling (Reply.Log entries.now)) }
{
    put_bytes(out, b"log ")?;
    put_number(out, entries.len() as u64)?;
    put_entries(out, entries)
}

/// Appends the text of a reply.
pub(crate) fn put_reply(out: &mut Vec<u8>, reply: &Reply) -> Result<(), OutOfMemory>
    ensures { OnOk result (out.new.items ≡ out.old.items ++ reply_spelling reply.now) }
{
    match reply {
        Reply::Log(entries) => put_log(out, entries.as_slice()),
        _ => reply_text::put_reply(out, reply),
    }
}
