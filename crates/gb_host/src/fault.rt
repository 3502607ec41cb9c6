//! Why a host refuses.
ghost use Rattle.std.specs.Prelude.{◌≡◌};

use crate::closed::Difference;
use gb_types::memory::OutOfMemory;
use std::alloc::AllocError;

/// Why a host refused. Nothing has changed then, but that `close` has given up host and seats.
#[derive(Drop)]
pub enum HostFault {
    /// The node is not here. At the end: another node stands under a lock than the one with its number.
    NoNode,
    /// At the end, the seats are not those of the host: a number stands twice, or not at all.
    ForeignSeat,
    /// At the end, a seat's calls are not its entries in the tapes.
    Differs(Difference),
    /// A request for memory was refused.
    OutOfMemory,
    /// The seat has called the node 2^64 - 1 times.
    Full,
    /// The node's recorder is behind: as many entries wait for it as its ring holds.
    Behind,
}

impl From<AllocError> for HostFault {
    ghost use Rattle.gb_host.specs.declared.fault.HostFault.TheVariants.{OutOfMemory};

    ghost from_gives = { λ e f. f ≡ OutOfMemory };

    fn from(_: AllocError) -> HostFault {
        HostFault::OutOfMemory
    }
}

impl From<OutOfMemory> for HostFault {
    ghost use Rattle.gb_host.specs.declared.fault.HostFault.TheVariants.{OutOfMemory};

    ghost from_gives = { λ e f. f ≡ OutOfMemory };

    fn from(_: OutOfMemory) -> HostFault {
        HostFault::OutOfMemory
    }
}
