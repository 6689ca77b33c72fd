// Laying out, the three kinds of insertion, and the look-ahead of each.
// From the Rust: OrdInsertKind and the entry of ord/insert.rs.
ghost use Rattle.queue.specs.Promised.{NeedPromise, LayOutPromise, InsertPromise, EmptyPromise, ManualPromise, AheadPromise, AheadEmptyPromise, AheadManualPromise};

use arena::store::{Store, View};
use arena::words::{FIELDS, HEAD_WORDS};
use arena::{header, laying};
use handle::{Ahead, Entry, Handle, Inserted, Key, LIMIT, Refusal, Side};
use insert::{ahead, place};

// How many numbers a store of that capacity takes.
#[tactic(auto, using(crate::proofs::Promising::needs_none, crate::proofs::Promising::needs_beyond, crate::proofs::Promising::needs_told), unfolding(handle::specs::Numbers::limit))]
pub fn numbers_needed(capacity: u64) -> Result<u64, Refusal>
    ensures { NeedPromise capacity result }
{
    if capacity < 1 {
        return Err(Refusal::BadLayout);
    }
    if LIMIT < capacity {
        return Err(Refusal::BadLayout);
    }
    Ok(HEAD_WORDS + capacity * FIELDS)
}

// Makes an empty queue of a lent store, whatever it held.
pub fn lay_out(s: &mut [u64], capacity: u64, top: u64) -> Result<(), Refusal>
    ensures { LayOutPromise s.old s.new capacity top result }
{
    laying::lay_out(s, capacity, top)
}

// Normal insertion: by the key's place in the order; an equal key replaces the value.
pub fn insert(s: &mut [u64], key: Key, value: u64) -> Result<Inserted, Refusal>
    ensures { InsertPromise s.old s.new key.0 value result }
{
    let cap = header::test(s)?;
    place::insert_normal(&mut Store::new(s, cap), Entry { key, value })
}

// Insertion into an empty queue only.
pub fn insert_empty(s: &mut [u64], key: Key, value: u64) -> Result<Inserted, Refusal>
    ensures { EmptyPromise s.old s.new key.0 value result }
{
    let cap = header::test(s)?;
    place::insert_empty(&mut Store::new(s, cap), Entry { key, value })
}

// Insertion beside the entry that h names, on the given side, or in its place.
pub fn insert_manual(
    s: &mut [u64],
    h: Handle,
    side: Side,
    key: Key,
    value: u64,
) -> Result<Inserted, Refusal>
    ensures { ManualPromise s.old s.new h side key.0 value result }
{
    let cap = header::test(s)?;
    place::insert_manual(&mut Store::new(s, cap), h, side, Entry { key, value })
}

// What `insert` would answer next, with nothing changed.
pub fn look_ahead(s: &[u64], key: Key) -> Result<Ahead, Refusal>
    ensures { AheadPromise s.now key.0 result }
{
    let cap = header::test(s)?;
    ahead::ahead_normal(View { words: s, cap }, key)
}

// What `insert_empty` would answer next.
pub fn look_ahead_empty(s: &[u64]) -> Result<Ahead, Refusal>
    ensures { AheadEmptyPromise s.now result }
{
    let cap = header::test(s)?;
    ahead::ahead_empty(View { words: s, cap })
}

// What `insert_manual` would answer next.
pub fn look_ahead_manual(s: &[u64], h: Handle, side: Side, key: Key) -> Result<Ahead, Refusal>
    ensures { AheadManualPromise s.now h side key.0 result }
{
    let cap = header::test(s)?;
    ahead::ahead_manual(View { words: s, cap }, h, side, key)
}
