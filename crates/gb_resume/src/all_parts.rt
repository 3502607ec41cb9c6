//! The parts of a record, one after the other.
ghost use Rattle.std.specs.Prelude.{◌≡◌, ◌<◌, ◌++◌, ◌∷◌, [], List, IfOk, length, vec_len};
ghost use Rattle.gb_resume.specs.Resumed.{cluster_of, IsResumed};

use crate::fault::ResumeFault;
use crate::parts::Parts;
use crate::piece::{PIECE, take_part};
use crate::reading::Reading;
use crate::wanted::Wanted;
use gb_host::Begun;
use std::alloc::Global;

/// What was read of a node's record.
#[derive(Clone, Copy, Debug, PartialEq, Eq)]
pub struct Resumed {
    /// How many parts it has: the next start begins the part with this number.
    pub parts: u32,
    /// How many entries they have: those before the next part.
    pub entries: u64,
    /// The lowest number above those of their seats: the first seat of the next part.
    pub seat: u32,
}

// Returns the space for a read, filled with zeros.
fn make_space(alloc: Global) -> Result<Vec<u8>, ResumeFault>
    ensures { IfOk result (λ space. vec_len space ≡ PIECE) }
{
    Ok(vec![in alloc; 0u8; PIECE]?)
}

/// Reads the parts of a record from part 0 on, up to the first that is not there, and makes their entries happen again at a node at
/// which nothing has happened. An entry that was refused for lack of memory changed nothing, and is passed over. Nothing is written.
/// A record without parts, which a node has that never began, is read as one of 0 entries. After an `Err` the node has happened to it
/// what stands before the fault, and perhaps the answer that differs: it is not to be used.
pub fn resume<P: Parts>(
    alloc: Global,
    parts: &P,
    wanted: &Wanted,
    begun: &mut Begun,
) -> Result<Resumed, ResumeFault>
    requires { wanted.now.cluster ≡ cluster_of begun.old.plan begun.old.me }
    ensures { IfOk result (IsResumed (P.text parts.now) (P.ends parts.now) wanted.now begun.old begun.new) }
{
    let mut space = make_space(alloc)?;
    let mut reading = Reading::new();
    'parts: for part in 0..u32::MAX {
        let mut reader = match parts.open(part) {
            Ok(Some(reader)) => reader,
            Ok(None) => {
                return Ok(Resumed {
                    parts: part,
                    entries: reading.entries,
                    seat: reading.seat,
                });
            }
            Err(_) => return Err(ResumeFault::Unread(part)),
        };
        reading.begin_part(part);
        take_part(alloc, wanted, begun, &mut reader, &mut space, &mut reading)?;
    }
    Err(ResumeFault::Unread(u32::MAX))
}
