// The chain: each live slot knows its neighbours PREV and NEXT, and the header knows both ends, FIRST and LAST.
// Before and after are one piece of code over a side d: PREV + d.number is the neighbour on side d, NEXT - d.number the other, FIRST + d.number the end.
// From the Rust: chain/links.rs and chain/impl_chain_arena_trait.rs; the ends, which insert.rs and remove.rs move there, move here.
#![tactic(auto)]

ghost use Rattle.std.specs.Prelude.{◌≡◌, ◌<◌};
ghost use Rattle.arena.specs.inner.Stored.{Becomes, SameLoan};
ghost use Rattle.chain.specs.inner.Links.{hooked, link_alone, link_beside, unlink_slot};
ghost use Rattle.chain.specs.inner.Steps.{followed, step_from, end_of, SteppedIn};

use arena::slots;
use arena::store::{Store, View};
use arena::words::{FIRST, LAST, NEXT, PREV};
use handle::{Hand, Handle, Refusal};

// Where a slot stood in the chain.
#[derive(Drop)]
pub struct Neighbours {
    pub prev: u64,
    pub next: u64,
}

// What stands on side d of q learns of it: the slot p, or the header's end on that side where p is no slot.
#[tactic(auto, unfolding(crate::specs::inner::Links::hooked))]
fn hook(s: &mut Store<'_>, p: u64, q: u64, d: Hand)
    ensures { Becomes s.old s.new (hooked s.old.words.now s.old.cap p q d) }
{
    if p < s.cap {
        s.put(p, NEXT - d.number, q);
    } else {
        s.put_head(FIRST + d.number, q);
    }
}

// The slot i becomes the whole chain.
#[tactic(auto, unfolding(crate::specs::inner::Links::link_alone))]
pub fn link_alone(s: &mut Store<'_>, i: u64)
    requires i_lt_cap { i < s.old.cap }
    ensures { Becomes s.old s.new (link_alone s.old.words.now s.old.cap i) }
{
    s.put(i, PREV, Handle::NO_SLOT);
    s.put(i, NEXT, Handle::NO_SLOT);
    s.put_head(FIRST, i);
    s.put_head(LAST, i);
}

// The slot i comes into the chain beside p, on its side d.
#[tactic(auto, unfolding(crate::specs::inner::Links::link_beside, crate::specs::inner::Links::between))]
pub fn link_beside(s: &mut Store<'_>, i: u64, p: u64, d: Hand)
    requires i_lt_cap { i < s.old.cap }
    requires p_lt_cap { p < s.old.cap }
    ensures { Becomes s.old s.new (link_beside s.old.words.now s.old.cap i p d) }
{
    let q = s.field(p, PREV + d.number);
    s.put(i, PREV + d.number, q);
    s.put(i, NEXT - d.number, p);
    s.put(p, PREV + d.number, i);
    hook(s, q, i, d);
}

// The slot i leaves the chain, and its neighbours become each other's. Its own words stay: freeing it blanks them.
#[tactic(auto, unfolding(crate::specs::inner::Links::unlink_slot, crate::specs::inner::Links::joined, crate::specs::inner::Links::neighbours))]
pub fn unlink(s: &mut Store<'_>, i: u64) -> Neighbours
    requires i_lt_cap { i < s.old.cap }
    ensures keeps { SameLoan s.old s.new }
    ensures result_after { (s.new.words.now, result) ≡ unlink_slot s.old.words.now s.old.cap i }
{
    let prev = s.field(i, PREV);
    let next = s.field(i, NEXT);
    hook(s, prev, next, Hand::LEFT);
    hook(s, next, prev, Hand::RIGHT);
    Neighbours { prev, next }
}

// What a link leads to: an entry's handle, or none at the end of the chain.
#[tactic(auto, unfolding(crate::specs::inner::Steps::followed))]
fn follow(s: View<'_>, p: u64) -> Result<Option<Handle>, Refusal>
    ensures value { result ≡ followed s.entry.words.now s.entry.cap p }
    ensures stepped_in { SteppedIn s.entry.cap result }
{
    if p == Handle::NO_SLOT {
        return Ok(None);
    }
    if s.cap <= p {
        return Err(Refusal::NotSound);
    }
    Ok(Some(slots::handle_at(s, p)))
}

// One step from the slot i: back for the left side, forward for the right one.
#[tactic(auto, unfolding(crate::specs::inner::Steps::step_from))]
pub fn step(s: View<'_>, i: u64, d: Hand) -> Result<Option<Handle>, Refusal>
    requires i_lt_cap { i < s.cap }
    ensures value { result ≡ step_from s.entry.words.now s.entry.cap i d }
    ensures stepped_in { SteppedIn s.entry.cap result }
{
    let q = s.field(i, PREV + d.number);
    follow(s, q)
}

// The end of the chain on side d: the first entry for the left one, the last for the right one.
#[tactic(auto, unfolding(crate::specs::inner::Steps::end_of))]
pub fn end(s: View<'_>, d: Hand) -> Result<Option<Handle>, Refusal>
    ensures value { result ≡ end_of s.entry.words.now s.entry.cap d }
    ensures stepped_in { SteppedIn s.entry.cap result }
{
    let p = s.head(FIRST + d.number);
    follow(s, p)
}
