// The calls of a ring.
ghost use Rattle.std.specs.Prelude.{◌≡◌, ◌+◌, ◌<◌, ◌≤◌, length, is_some, IfSome, Some, MatchResult};
ghost use Rattle.line.specs.Slots.{following, put_fault, take_fault, SlotPut, SlotTaken, fits_ring, new_slots};
ghost use Rattle.line.specs.Ring.{slots};

use super::{NUMBERS, Ring};
use crate::LineFault;

// The slot that lies `steps` behind a slot, in a ring of `room` slots.
// By a test: `%` would divide at every put and take.
fn later(room: usize, slot: usize, steps: usize) -> usize
    requires slot { slot < room }
    requires steps { steps ≤ room }
    requires room { room ≤ 64 }
    ensures { result ≡ following room (slot + steps) }
{
    if slot + steps < room {
        slot + steps
    } else {
        slot + steps - room
    }
}

impl Ring {
    // A ring of empty slots whose first segment has the number `first`.
    pub fn new(room: usize, first: u64) -> Option<Ring>
        ensures answer { is_some result ≡ fits_ring room first }
        ensures made { IfSome result (λ ring. slots ring ≡ new_slots room first) }
    {
        if room == 0 || room > 64 || first >= NUMBERS {
            return None;
        }
        Some(Ring {
            room,
            head: 0,
            count: 0,
            number: first,
        })
    }

    // The slot that the next segment takes, which waits from now on.
    pub fn put(&mut self) -> Result<usize, LineFault>
        ensures { MatchResult result (λ k. SlotPut (slots self.old) k (slots self.new)) (λ f. (put_fault (slots self.old) ≡ Some f) × (self.new ≡ self.old)) }
    {
        if self.number == NUMBERS {
            return Err(LineFault::UsedUp);
        }
        if self.count == self.room {
            return Err(LineFault::NoRoom);
        }
        let slot = later(self.room, self.head, self.count);
        self.count += 1;
        self.number += 1;
        Ok(slot)
    }

    // The slot of the oldest segment, which waits no more.
    pub fn take(&mut self) -> Result<usize, LineFault>
        ensures { MatchResult result (λ k. SlotTaken (slots self.old) k (slots self.new)) (λ f. (take_fault (slots self.old) ≡ Some f) × (self.new ≡ self.old)) }
    {
        if self.count == 0 {
            return Err(LineFault::NothingWaits);
        }
        let slot = self.head;
        self.head = later(self.room, self.head, 1);
        self.count -= 1;
        Ok(slot)
    }

    // How many segments wait.
    pub fn waiting(&self) -> usize
        ensures { result ≡ length (slots self.now).taken }
    {
        self.count
    }

    // How many segments may wait.
    pub fn room(&self) -> usize
        ensures { result ≡ (slots self.now).room }
    {
        self.room
    }

    // The number of the next segment.
    pub fn number(&self) -> u64
        ensures { result ≡ (slots self.now).number }
    {
        self.number
    }
}
