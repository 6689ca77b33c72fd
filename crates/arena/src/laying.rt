// Laying out: a lent store becomes an empty queue, whatever it held, or is refused and stays as it was.
// From the Rust: the making of a new arena, with the capacity and the top generation fixed at once.
ghost use Rattle.std.specs.Prelude.{◌≡◌, ◌<◌};
ghost use Rattle.arena.specs.Words.{head_words};
ghost use Rattle.arena.specs.inner.Stored.{Becomes};
ghost use Rattle.arena.specs.inner.Laying.{unlinked, blank_of, fresh_slot, lay_slots, zeroed, fresh_head, good_layout, lay_out_words};

use crate::store::Store;
use crate::words::{
    BACK, CAPACITY, FIELDS, FIRST, GENERATION, HEAD_WORDS, HEIGHT, KEY, LAST, LEFT, NEXT, PREV,
    RANK, RIGHT, ROOT, STACK, TOP, VALUE,
};
use handle::{Handle, LIMIT, Refusal, TOP_LIMIT};

// The links and the rank of a slot without an entry. BACK holds b.
#[tactic(auto, unfolding(crate::specs::inner::Laying::unlinked))]
fn unlink(s: &mut Store<'_>, i: u64, b: u64)
    requires i_lt_cap { i < s.old.cap }
    ensures { Becomes s.old s.new (unlinked s.old.words.now s.old.cap i b) }
{
    s.put(i, LEFT, Handle::NO_SLOT);
    s.put(i, RIGHT, Handle::NO_SLOT);
    s.put(i, RANK, 0);
    s.put(i, BACK, b);
    s.put(i, PREV, Handle::NO_SLOT);
    s.put(i, NEXT, Handle::NO_SLOT);
}

// A slot without an entry: every field but the generation holds its fixed value, and BACK holds b.
#[tactic(auto, unfolding(crate::specs::inner::Laying::blank_of))]
pub fn blank(s: &mut Store<'_>, i: u64, b: u64)
    requires i_lt_cap { i < s.old.cap }
    ensures { Becomes s.old s.new (blank_of s.old.words.now s.old.cap i b) }
{
    s.put(i, KEY, 0);
    s.put(i, VALUE, 0);
    unlink(s, i, b);
}

// The slot i as it is laid out: free, in its first generation, and handed out after those below it.
#[tactic(auto, unfolding(crate::specs::inner::Laying::fresh_slot))]
fn fresh_slot(s: &mut Store<'_>, i: u64)
    requires i_lt_cap { i < s.old.cap }
    ensures { Becomes s.old s.new (fresh_slot s.old.words.now s.old.cap i) }
{
    let p = s.cap - 1 - i;
    blank(s, i, p);
    s.put(i, GENERATION, Handle::FIRST_GENERATION);
    s.put(i, STACK, p);
}

fn fresh_slots(s: &mut Store<'_>)
    ensures { Becomes s.old s.new (lay_slots s.old.cap s.old.words.now s.old.cap) }
{
    for i in 0..s.cap {
        fresh_slot(s, i);
    }
}

fn zero_header(s: &mut Store<'_>)
    ensures { Becomes s.old s.new (zeroed head_words s.old.words.now) }
{
    for h in 0..HEAD_WORDS {
        s.put_head(h, 0);
    }
}

#[tactic(auto, unfolding(crate::specs::inner::Laying::fresh_head))]
fn fresh_header(s: &mut Store<'_>, top: u64)
    ensures { Becomes s.old s.new (fresh_head s.old.words.now s.old.cap top) }
{
    zero_header(s);
    s.put_head(CAPACITY, s.cap);
    s.put_head(TOP, top);
    s.put_head(HEIGHT, s.cap);
    s.put_head(FIRST, Handle::NO_SLOT);
    s.put_head(LAST, Handle::NO_SLOT);
    s.put_head(ROOT, Handle::NO_SLOT);
}

// Whether a store of so many numbers can be laid out so.
#[tactic(auto, unfolding(crate::specs::inner::Laying::good_layout, handle::specs::Numbers::limit, handle::specs::Numbers::top_limit))]
fn good_layout(len: u64, capacity: u64, top: u64) -> bool
    ensures { result ≡ good_layout len capacity top }
{
    if capacity < 1 {
        return false;
    }
    if LIMIT < capacity {
        return false;
    }
    if top < 1 {
        return false;
    }
    if TOP_LIMIT < top {
        return false;
    }
    if len < HEAD_WORDS + capacity * FIELDS {
        return false;
    }
    true
}

#[tactic(auto, using(crate::proofs::SlotReads::laying), unfolding(crate::specs::inner::Laying::lay_out_words, crate::specs::inner::Laying::laid_words))]
pub fn lay_out(s: &mut [u64], capacity: u64, top: u64) -> Result<(), Refusal>
    ensures { (s.new, result) ≡ lay_out_words s.old capacity top }
{
    if good_layout(s.len() as u64, capacity, top) {
        let mut store = Store::new(s, capacity);
        fresh_header(&mut store, top);
        fresh_slots(&mut store);
        return Ok(());
    }
    Err(Refusal::BadLayout)
}
