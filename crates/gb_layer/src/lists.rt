//! The uppermost sink: two lists of places.
ghost use Rattle.std.specs.Prelude.{◌≡◌, [], ◌≤◌, OnOk, IfOk, vec_len, vec_capacity};
ghost use Rattle.gb_layer.specs.Room.{free};
ghost use Rattle.gb_layer.specs.ListSink.{ListsState, lists_state, lists_sent, lists_risen, lists_takes, lists_split};

use crate::effects::Room;
use crate::index::Index;
use crate::sink::Sink;
use gb_types::{NodeId, OutOfMemory};
use std::alloc::Global;

/// The message at `place` comes up, as received from the node `via`.
#[derive(Clone, Copy, PartialEq, Eq)]
pub struct PlacedUp {
    pub via: NodeId,
    pub place: u16,
}

/// The effects of calls, the oldest first. The caller empties the lists and keeps their memory.
#[derive(Drop)]
pub struct Lists {
    /// The places of messages to send to each other member.
    pub sends: Vec<u16>,
    /// The pairs that came up.
    pub ups: Vec<PlacedUp>,
}

impl Lists {
    /// Returns lists without items.
    pub fn new(alloc: Global) -> Lists
        ensures sends { result.sends.items ≡ [] }
        ensures ups { result.ups.items ≡ [] }
    {
        Lists {
            sends: Vec::new(alloc),
            ups: Vec::new(alloc),
        }
    }

    /// Reserves memory for `room.sends` more messages to send and `room.ups` more pairs that come up. `Err` if memory is refused. The items
    /// stay as they were in both cases.
    pub fn reserve(&mut self, room: Room) -> Result<(), OutOfMemory>
        ensures sends { self.new.sends.items ≡ self.old.sends.items }
        ensures ups { self.new.ups.items ≡ self.old.ups.items }
        ensures free_sends { OnOk result (room.sends ≤ free self.new.sends) }
        ensures free_ups { OnOk result (room.ups ≤ free self.new.ups) }
    {
        self.sends.reserve(room.sends)?;
        self.ups.reserve(room.ups)?;
        Ok(())
    }

    /// Removes all items, and keeps the memory.
    pub fn clear(&mut self)
        ensures sends { self.new.sends.items ≡ [] }
        ensures ups { self.new.ups.items ≡ [] }
        ensures sends_memory { vec_capacity self.new.sends ≡ vec_capacity self.old.sends }
        ensures ups_memory { vec_capacity self.new.ups ≡ vec_capacity self.old.ups }
    {
        self.sends.clear();
        self.ups.clear();
    }
}

impl Sink for Lists {
    ghost State = { ListsState };

    ghost state = { lists_state };

    ghost sent = { lists_sent };

    ghost risen = { lists_risen };

    ghost takes = { lists_takes };

    #[inline(always)]
    fn send(&mut self, _index: &Index, place: u16) {
        self.sends.push_reserved(place);
    }

    #[inline(always)]
    fn up(&mut self, _index: &Index, via: NodeId, place: u16) {
        self.ups.push_reserved(PlacedUp { via, place });
    }

    ghost splits = { lists_split };
}
