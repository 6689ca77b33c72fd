// Which handle an insertion gave, by its number, and which insertion's entry lives in a slot now.
// A table has fixed memory, and every call is safe on any numbers.
ghost use Rattle.std.specs.Prelude.{◌≡◌, ◌+◌, ◌<◌, ◌≤◌, Some, slice_get};

use handle::{Generation, Handle, LIMIT, Slot};

// So many insertions have a number after a `new`.
pub const NUMBERS: u64 = 8192;

const HANDLES: usize = NUMBERS as usize;

const SLOTS: usize = LIMIT as usize;

// The first `count` handles are those that were given. Each slot has the number of the insertion that last took it.
#[derive(Drop)]
pub struct Table {
    count: u64,
    handles: [Handle; HANDLES],
    numbers: [u64; SLOTS],
    ghost in_table: { count ≤ 8192 },
}

impl Table {
    ghost use Rattle.handle.specs.Numbers.{limit, no_slot};

    pub fn new() -> Table
        ensures { result.count ≡ 0 }
    {
        Table {
            count: 0,
            // zeros, with which the whole table is filled where it stands
            handles: [Handle::new(Slot(0), Generation(0)); HANDLES],
            numbers: [0; SLOTS],
        }
    }

    // No number has been given yet.
    pub fn clear(&mut self)
        ensures { self.new.count ≡ 0 }
    {
        self.count = 0;
    }

    // How many numbers have been given.
    pub fn count(&self) -> u64
        ensures { result ≡ self.now.count }
    {
        self.count
    }

    // The next number goes to the entry that h names, unless every number has been given.
    #[tactic(auto, unfolding(handle::specs::Numbers::limit))]
    pub fn give(&mut self, h: Handle) -> u64
        ensures next { result ≡ self.old.count }
        ensures given { self.old.count < 8192 → (self.new.count ≡ self.old.count + 1) × (slice_get self.new.handles result ≡ Some h) }
        ensures newest { self.old.count < 8192 → h.slot.0 < limit → slice_get self.new.numbers h.slot.0 ≡ Some result }
    {
        let n = self.count;
        if n < NUMBERS {
            self.handles[n as usize] = h;
            let slot = h.slot.0;
            if slot < LIMIT {
                self.numbers[slot as usize] = n;
            }
            self.count = n + 1;
        }
        n
    }

    // The handle that the insertion n gave; one that names no entry where there was no such insertion.
    pub fn handle_of(&self, n: u64) -> Handle
        ensures given { n < self.now.count → slice_get self.now.handles n ≡ Some result }
        ensures unknown { self.now.count ≤ n → result.slot.0 ≡ no_slot }
    {
        if n < self.count {
            self.handles[n as usize]
        } else {
            Handle::none()
        }
    }

    // The number of the insertion that last took a slot.
    #[tactic(auto, unfolding(handle::specs::Numbers::limit))]
    pub fn number_of(&self, slot: u64) -> u64
        ensures { slot < limit → slice_get self.now.numbers slot ≡ Some result }
    {
        if slot < LIMIT {
            self.numbers[slot as usize]
        } else {
            NUMBERS
        }
    }
}
