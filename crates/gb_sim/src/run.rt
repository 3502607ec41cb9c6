//! What the program gb_sim does, over any reader and any writers: it runs a schedule of a cluster.
ghost use Rattle.gb_sim.specs.Run.{HasRun};

use gb_simulate::SimFault;
use gb_simulate::complaint::complain;
use gb_simulate::outcome::status_of;
use gb_simulate::simulate::simulate;
use gb_simulate::writing::tell_want_of_memory;
use std::alloc::Global;
use std::io::{Read, Write};
use std::mem;

/// How a run of the program ended.
#[derive(Clone, Copy)]
pub struct Ended {
    /// The exit status. 0: all lines were read; 1: a read or a write failed; 2: a bad line; 3: no memory.
    pub status: u8,
    /// Whether what went wrong is told, whole.
    pub told: Result<(), SimFault>,
}

/// Runs the schedule of a cluster that `reader` has, and writes its answers to `writer`, and behind them `out of memory` if memory
/// lacked. What went wrong is written to `errors`, in one line. Returns the exit status, 0 if all lines were read, 1 if a read or a
/// write failed, 2 for a bad line, 3 for lack of memory; and whether what went wrong could be told. The memory of the cluster is not
/// given back: the program ends.
pub fn run_schedule<R: Read, W: Write, E: Write>(
    alloc: Global,
    reader: &mut R,
    writer: &mut W,
    errors: &mut E,
) -> Ended
    ensures { HasRun (R.remaining reader.old) (R.remaining reader.new) (W.contents writer.old) (W.contents writer.new) (E.contents errors.old) (E.contents errors.new) result }
{
    let mut cluster = None;
    let outcome = simulate(alloc, reader, writer, &mut cluster);
    let outcome_told = tell_want_of_memory(outcome, writer);
    let told = complain(alloc, &outcome_told, errors);
    // Piece by piece, or not at all: with all the memory of the program it goes back at once.
    mem::forget(cluster);
    let status = status_of(&outcome_told);
    Ended { status, told }
}
