// What the queue's callers hold: slots, generations, keys, handles, sides and refusals, and the answers of the calls.
// Each is a type of its own, so that none can be passed for another (document 01, "What a queue holds").
// From the Rust: fundamental/ptr.rs (Ptr, its index and its generation) and fundamental/errors.rs.
#![tactic(auto)]

pub mod hand;
mod showing;

ghost use Rattle.std.specs.Prelude.{◌≡◌};
ghost use Rattle.handle.specs.Numbers.{no_slot, first_generation, refusal_number};

pub use hand::Hand;

// The most slots that a store may have: `limit` of specs/Numbers.antt. Crate `arena` is proved to test this.
pub const LIMIT: u64 = 1024;

// The greatest top generation: `top_limit`, likewise.
pub const TOP_LIMIT: u64 = 4294967295;

// A place for one entry in the store: 0 and up, below the capacity.
#[derive(Clone, Copy, Debug, PartialEq, Eq)]
pub struct Slot(pub u64);

// Which life of its slot an entry is: 1 at first, one more after each removal.
#[derive(Clone, Copy, Debug, PartialEq, Eq)]
pub struct Generation(pub u64);

// Where an entry stands in the queue's order: any signed 64-bit number.
#[derive(Clone, Copy, Debug, PartialEq, Eq)]
pub struct Key(pub i64);

// What names one entry for good: its slot, and the generation of the slot that it lives in.
#[derive(Clone, Copy, Debug, PartialEq, Eq)]
pub struct Handle {
    pub slot: Slot,
    pub generation: Generation,
}

// The side of an entry on which a key lies.
#[derive(Clone, Copy, Debug, PartialEq, Eq)]
pub enum Side {
    Less,
    Equal,
    Greater,
}

// Why a call says no. `refusal_number` of specs/Numbers.antt gives document 01's number of each.
#[derive(Clone, Copy, Debug, PartialEq, Eq)]
pub enum Refusal {
    NotWithinCapacity,
    FailedOrdRequirement,
    InvalidPtr,
    BadLayout,
    NotSound,
    BadTime,
}

// What an entry holds.
#[derive(Clone, Copy, Debug, PartialEq, Eq)]
pub struct Entry {
    pub key: Key,
    pub value: u64,
}

// "Any insertion answers New or Replacing with the handle, and the old value if replacing."
#[derive(Clone, Copy, Debug, PartialEq, Eq)]
pub enum Inserted {
    New(Handle),
    Replacing(Handle, u64),
}

// What an insertion would answer next: "New or Replacing with the handle".
#[derive(Clone, Copy, Debug, PartialEq, Eq)]
pub enum Ahead {
    New(Handle),
    Replacing(Handle),
}

// The removed entry; or the same with the note that its slot had the top generation and is retired.
#[derive(Clone, Copy, Debug, PartialEq, Eq)]
pub enum Removed {
    Entry(Entry),
    GenerationOverflow(Entry),
}

impl Handle {
    // The slot number that stands for no slot.
    pub const NO_SLOT: u64 = 65535;
    // The generation of a slot that was never freed.
    pub const FIRST_GENERATION: u64 = 1;

    pub fn new(slot: Slot, generation: Generation) -> Handle
        ensures { (result.slot ≡ slot) × (result.generation ≡ generation) }
    {
        Handle { slot, generation }
    }

    // The first handle that a slot ever gives.
    pub fn first(slot: Slot) -> Handle
        ensures { (result.slot ≡ slot) × (result.generation.0 ≡ first_generation) }
    {
        Handle {
            slot,
            generation: Generation(Handle::FIRST_GENERATION),
        }
    }

    // A handle that names no entry of any queue.
    pub fn none() -> Handle
        ensures { (result.slot.0 ≡ no_slot) × (result.generation.0 ≡ first_generation) }
    {
        Handle::first(Slot(Handle::NO_SLOT))
    }
}

impl Refusal {
    // Document 01's number of a refusal.
    pub fn number(self) -> u64
        ensures { result ≡ refusal_number self }
    {
        match self {
            Refusal::NotWithinCapacity => 1,
            Refusal::FailedOrdRequirement => 2,
            Refusal::InvalidPtr => 3,
            Refusal::BadLayout => 4,
            Refusal::NotSound => 5,
            Refusal::BadTime => 6,
        }
    }
}
