// Slots: taking the one freed last, and freeing one. A free slot stands in a stack and knows its place there.
// From the Rust: the free list of arena/base_arena.rs, with a generation for each slot.
ghost use Rattle.std.specs.Prelude.{◌≡◌, ◌<◌};
ghost use Rattle.arena.specs.Words.{field as field_of, GENERATION as GENERATION_OF};
ghost use Rattle.arena.specs.inner.Stored.{Becomes, SameLoan};
ghost use Rattle.arena.specs.inner.Slots.{handle_with, PeekedIn, peek_slot, popped, take_slot, TakenIn, pushed, free_slot};

use crate::laying;
use crate::store::{Store, View};
use crate::words::{GENERATION, HEIGHT, STACK, TOP};
use handle::{Generation, Handle, Refusal, Slot};

// What became of a freed slot.
#[derive(Clone, Copy, Debug, PartialEq, Eq)]
pub enum Freed {
    Again,
    GenerationOverflow,
}

// The handle of the slot i, in its generation.
pub fn handle_at(s: View<'_>, i: u64) -> Handle
    requires i_lt_cap { i < s.cap }
    ensures { result ≡ handle_with i (field_of s.entry.words.now s.entry.cap i GENERATION_OF) }
{
    let g = s.field(i, GENERATION);
    Handle::new(Slot(i), Generation(g))
}

// What `take` would answer, with nothing taken.
#[tactic(auto, unfolding(crate::specs::inner::Slots::peek_slot, crate::specs::inner::Slots::peek_from, crate::specs::inner::Slots::found_at))]
pub fn peek(s: View<'_>) -> Result<Handle, Refusal>
    ensures value { result ≡ peek_slot s.entry.words.now s.entry.cap }
    ensures peeked_in { PeekedIn s.entry.words.now s.entry.cap result }
{
    let h = s.head(HEIGHT);
    if h < 1 {
        return Err(Refusal::NotWithinCapacity);
    }
    if s.cap < h {
        return Err(Refusal::NotSound);
    }
    let i = s.field(h - 1, STACK);
    if s.cap <= i {
        return Err(Refusal::NotSound);
    }
    Ok(handle_at(s, i))
}

// The stack loses its top, whose place is p.
#[tactic(auto, unfolding(crate::specs::inner::Slots::popped))]
fn pop(s: &mut Store<'_>, p: u64)
    requires p_lt_cap { p < s.old.cap }
    ensures { Becomes s.old s.new (popped s.old.words.now s.old.cap p) }
{
    s.put(p, STACK, Handle::NO_SLOT);
    s.put_head(HEIGHT, p);
}

// Takes the slot that was freed last. Its fields other than the stack's are left to the caller.
#[tactic(auto, unfolding(crate::specs::inner::Slots::take_slot))]
pub fn take(s: &mut Store<'_>) -> Result<Handle, Refusal>
    ensures keeps { SameLoan s.old s.new }
    ensures result_after { (s.new.words.now, result) ≡ take_slot s.old.words.now s.old.cap }
    ensures taken_in { TakenIn s.old.cap result }
{
    let h = peek(s.view())?;
    let p = s.head(HEIGHT) - 1;
    pop(s, p);
    Ok(h)
}

// The slot i goes on the stack at height h, in the generation after g.
#[tactic(auto, unfolding(crate::specs::inner::Slots::pushed))]
fn push(s: &mut Store<'_>, i: u64, h: u64, g: u64)
    requires i_lt_cap { i < s.old.cap }
    requires h_lt_cap { h < s.old.cap }
    requires g_bound { g < 18446744073709551615 }
    ensures { Becomes s.old s.new (pushed s.old.words.now s.old.cap i h g) }
{
    laying::blank(s, i, h);
    s.put(i, GENERATION, g + 1);
    s.put(h, STACK, i);
    s.put_head(HEIGHT, h + 1);
}

// Frees the slot i: it is free again in the next generation, or retired where it had the top one.
#[tactic(auto, unfolding(crate::specs::inner::Slots::free_slot, crate::specs::inner::Slots::free_with))]
pub fn free(s: &mut Store<'_>, i: u64) -> Result<Freed, Refusal>
    requires i_lt_cap { i < s.old.cap }
    ensures keeps { SameLoan s.old s.new }
    ensures result_after { (s.new.words.now, result) ≡ free_slot s.old.words.now s.old.cap i }
{
    let h = s.head(HEIGHT);
    let top = s.head(TOP);
    let g = s.field(i, GENERATION);
    if g < top {
        if h < s.cap {
            push(s, i, h, g);
            return Ok(Freed::Again);
        }
        return Err(Refusal::NotSound);
    }
    laying::blank(s, i, Handle::NO_SLOT);
    Ok(Freed::GenerationOverflow)
}
