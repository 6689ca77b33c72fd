// Placing: a prepared insertion is carried out, and the three kinds of insertion from end to end. Loan and capacity of the store stay.
// A caller relies on the equality with specs/inner/Place.antt. "An insertion that replaces never meets 1": a slot is asked for only
// where a new entry is needed. From the Rust: SimpleOrdArenaInsertEntry::insert and insert_inx_manual_unwrap (ord/insert.rs).
ghost use Rattle.std.specs.Prelude.{◌≡◌, ◌<◌};
ghost use Rattle.arena.specs.inner.Stored.{Becomes, SameLoan};
ghost use Rattle.insert.specs.inner.Kinds.{PreparedIn};
ghost use Rattle.insert.specs.inner.Place.{stand_alone, placed_alone, hung_below, placed_beside, value_replaced, applied, normal_inserted, empty_inserted, manual_inserted};

use crate::kinds;
use crate::kinds::Prepared;
use arena::store::Store;
use arena::words::{ROOT, VALUE};
use arena::{entries, keys, slots};
use handle::{Entry, Hand, Handle, Inserted, Refusal, Side};
use raise::ranks;
use tree::Node;

// The slot i becomes the whole queue: an entry of rank 1 with no neighbour.
#[tactic(auto, unfolding(crate::specs::inner::Place::stand_alone))]
fn stand_alone(s: &mut Store<'_>, i: u64, entry: Entry)
    requires i_lt_cap { i < s.old.cap }
    ensures { Becomes s.old s.new (stand_alone s.old.words.now s.old.cap i entry.key.0 entry.value) }
{
    entries::put_entry(s, i, entry);
    let alone = Node {
        back: Handle::NO_SLOT,
        near: Handle::NO_SLOT,
        far: Handle::NO_SLOT,
        rank: 1,
    };
    tree::put_node(s, Hand::LEFT, i, alone);
    chain::link_alone(s, i);
    s.put_head(ROOT, i);
}

#[tactic(auto, unfolding(crate::specs::inner::Place::placed_alone))]
fn place_alone(s: &mut Store<'_>, entry: Entry) -> Result<Inserted, Refusal>
    ensures keeps { SameLoan s.old s.new }
    ensures result_after { (s.new.words.now, result) ≡ placed_alone s.old.words.now s.old.cap entry.key.0 entry.value }
{
    let h = slots::take(s)?;
    let i = h.slot.0;
    stand_alone(s, i, entry);
    Ok(Inserted::New(h))
}

// The slot i becomes the child of p on the side d: an entry of rank 1, beside p in the chain. Then the ranks are put right.
#[tactic(auto, unfolding(crate::specs::inner::Place::hung_below, crate::specs::inner::Place::hung))]
fn hang_below(s: &mut Store<'_>, i: u64, p: u64, d: Hand, entry: Entry) -> Result<(), Refusal>
    requires i_lt_cap { i < s.old.cap }
    requires p_lt_cap { p < s.old.cap }
    ensures keeps { SameLoan s.old s.new }
    ensures result_after { (s.new.words.now, result) ≡ hung_below s.old.words.now s.old.cap i p d entry.key.0 entry.value }
{
    entries::put_entry(s, i, entry);
    let leaf = Node {
        back: p,
        near: Handle::NO_SLOT,
        far: Handle::NO_SLOT,
        rank: 1,
    };
    tree::put_node(s, Hand::LEFT, i, leaf);
    chain::link_beside(s, i, p, d);
    tree::put_child(s, p, d, i);
    ranks::rebalance(s, i, p)
}

#[tactic(auto, unfolding(crate::specs::inner::Place::placed_beside))]
fn place_beside(s: &mut Store<'_>, p: u64, d: Hand, entry: Entry) -> Result<Inserted, Refusal>
    requires p_lt_cap { p < s.old.cap }
    ensures keeps { SameLoan s.old s.new }
    ensures result_after { (s.new.words.now, result) ≡ placed_beside s.old.words.now s.old.cap p d entry.key.0 entry.value }
{
    let h = slots::take(s)?;
    let i = h.slot.0;
    hang_below(s, i, p, d, entry)?;
    Ok(Inserted::New(h))
}

// "Equal: the value is replaced, the old one returned, the handle kept, no slot used."
#[tactic(auto, unfolding(crate::specs::inner::Place::value_replaced))]
fn replace(s: &mut Store<'_>, i: u64, value: u64) -> Result<Inserted, Refusal>
    requires i_lt_cap { i < s.old.cap }
    ensures keeps { SameLoan s.old s.new }
    ensures result_after { (s.new.words.now, result) ≡ value_replaced s.old.words.now s.old.cap i value }
{
    let h = slots::handle_at(s.view(), i);
    let old = s.field(i, VALUE);
    s.put(i, VALUE, value);
    Ok(Inserted::Replacing(h, old))
}

// Carries out what was prepared, or hands the refusal on.
pub fn apply(
    s: &mut Store<'_>,
    p: Result<Prepared, Refusal>,
    entry: Entry,
) -> Result<Inserted, Refusal>
    requires prepared_in { PreparedIn s.old.cap p }
    ensures keeps { SameLoan s.old s.new }
    ensures result_after { (s.new.words.now, result) ≡ applied s.old.words.now s.old.cap p entry.key.0 entry.value }
{
    match p? {
        Prepared::Alone => place_alone(s, entry),
        Prepared::Beside(q, d) => place_beside(s, q, d, entry),
        Prepared::Replace(i) => replace(s, i, entry.value),
    }
}

#[tactic(auto, unfolding(crate::specs::inner::Place::normal_inserted))]
pub fn insert_normal(s: &mut Store<'_>, entry: Entry) -> Result<Inserted, Refusal>
    ensures keeps { SameLoan s.old s.new }
    ensures result_after { (s.new.words.now, result) ≡ normal_inserted s.old.words.now s.old.cap entry.key.0 entry.value }
{
    let k = keys::stored_key(entry.key);
    let p = kinds::prepare_normal(s.view(), k);
    apply(s, p, entry)
}

#[tactic(auto, unfolding(crate::specs::inner::Place::empty_inserted))]
pub fn insert_empty(s: &mut Store<'_>, entry: Entry) -> Result<Inserted, Refusal>
    ensures keeps { SameLoan s.old s.new }
    ensures result_after { (s.new.words.now, result) ≡ empty_inserted s.old.words.now s.old.cap entry.key.0 entry.value }
{
    let p = kinds::prepare_empty(s.view());
    apply(s, p, entry)
}

#[tactic(auto, unfolding(crate::specs::inner::Place::manual_inserted))]
pub fn insert_manual(
    s: &mut Store<'_>,
    h: Handle,
    side: Side,
    entry: Entry,
) -> Result<Inserted, Refusal>
    ensures keeps { SameLoan s.old s.new }
    ensures result_after { (s.new.words.now, result) ≡ manual_inserted s.old.words.now s.old.cap h side entry.key.0 entry.value }
{
    let k = keys::stored_key(entry.key);
    let p = kinds::prepare_manual(s.view(), h, side, k);
    apply(s, p, entry)
}
