// The tests of each slot and of each place of the free stack, by single words.
// A reader may rely on: each test is a definition of specs/inner/Slots, for any words; a live slot's test asks only that it hangs below a
// slot of a greater rank that has it as a child, or is the root: with the walk from the root, that reaches every live slot.
// From the Rust: _check_invariants of ord/find.rs, its part on parents; the tests of slots without an entry are document 01's.
ghost use Rattle.std.specs.Prelude.{◌≡◌, ◌<◌, ◌≤◌};
ghost use Rattle.sound.specs.inner.Slots.{unlinked_test, blank_test, rest_test, child_test, hangs_test, slot_test, place_test, slots_test};

use crate::nodes;
use arena::store::View;
use arena::words::{
    BACK, BUDGET, GENERATION, KEY, LEFT, NEXT, PREV, RANK, RIGHT, ROOT, STACK, VALUE,
};
use handle::Handle;

// The links of a slot without an entry hold their fixed value.
#[tactic(auto, unfolding(crate::specs::inner::Slots::unlinked_test))]
fn unlinked(s: View<'_>, i: u64) -> bool
    requires i_lt_cap { i < s.cap }
    ensures { result ≡ unlinked_test s.entry.words.now s.entry.cap i }
{
    if s.field(i, LEFT) != Handle::NO_SLOT {
        return false;
    }
    if s.field(i, RIGHT) != Handle::NO_SLOT {
        return false;
    }
    if s.field(i, PREV) != Handle::NO_SLOT {
        return false;
    }
    if s.field(i, NEXT) != Handle::NO_SLOT {
        return false;
    }
    true
}

// Rule 7 of a slot without an entry.
#[tactic(auto, unfolding(crate::specs::inner::Slots::blank_test))]
fn is_blank(s: View<'_>, i: u64) -> bool
    requires i_lt_cap { i < s.cap }
    ensures { result ≡ blank_test s.entry.words.now s.entry.cap i }
{
    if s.field(i, KEY) != 0 {
        return false;
    }
    if s.field(i, VALUE) != 0 {
        return false;
    }
    unlinked(s, i)
}

// A slot without an entry is retired in the top generation, or free: it names its place in the stack of height h, and that names it.
#[tactic(auto, unfolding(crate::specs::inner::Slots::rest_test, crate::specs::inner::Slots::rest_with))]
fn at_rest(s: View<'_>, top: u64, h: u64, i: u64) -> bool
    requires i_lt_cap { i < s.cap }
    requires h_le_cap { h ≤ s.cap }
    ensures { result ≡ rest_test s.entry.words.now s.entry.cap top h i }
{
    let place = s.field(i, BACK);
    let g = s.field(i, GENERATION);
    if place == Handle::NO_SLOT {
        return g == top;
    }
    if h <= place {
        return false;
    }
    if s.field(place, STACK) != i {
        return false;
    }
    nodes::good_generation(g, top)
}

// The slot i is a child of the slot p.
#[tactic(auto, unfolding(crate::specs::inner::Slots::child_test))]
fn is_child(s: View<'_>, i: u64, p: u64) -> bool
    requires p_lt_cap { p < s.cap }
    ensures { result ≡ child_test s.entry.words.now s.entry.cap i p }
{
    if s.field(p, LEFT) == i {
        return true;
    }
    s.field(p, RIGHT) == i
}

// A live slot is the root, or hangs below a slot of a greater rank. Ranks are small, so that one comes to the root.
#[tactic(auto, unfolding(crate::specs::inner::Slots::hangs_test, crate::specs::inner::Slots::hangs_with, arena::specs::inner::Budget::budget))]
fn hangs(s: View<'_>, i: u64) -> bool
    requires i_lt_cap { i < s.cap }
    ensures { result ≡ hangs_test s.entry.words.now s.entry.cap i }
{
    let rank = s.field(i, RANK);
    let p = s.field(i, BACK);
    if BUDGET <= rank {
        return false;
    }
    if s.cap <= p {
        return s.head(ROOT) == i;
    }
    if s.field(p, RANK) <= rank {
        return false;
    }
    is_child(s, i, p)
}

// Rules 5 and 7 of the slot i.
#[tactic(auto, unfolding(crate::specs::inner::Slots::slot_test))]
fn good_slot(s: View<'_>, top: u64, h: u64, i: u64) -> bool
    requires i_lt_cap { i < s.cap }
    requires h_le_cap { h ≤ s.cap }
    ensures { result ≡ slot_test s.entry.words.now s.entry.cap top h i }
{
    if s.field(i, RANK) != 0 {
        return hangs(s, i);
    }
    if is_blank(s, i) {
        return at_rest(s, top, h, i);
    }
    false
}

// Rule 5 of the stack's place p: below the height it holds a slot without an entry that names the place, else no slot.
#[tactic(auto, unfolding(crate::specs::inner::Slots::place_test, crate::specs::inner::Slots::place_with))]
fn good_place(s: View<'_>, h: u64, p: u64) -> bool
    requires p_lt_cap { p < s.cap }
    ensures { result ≡ place_test s.entry.words.now s.entry.cap h p }
{
    let i = s.field(p, STACK);
    if h <= p {
        return i == Handle::NO_SLOT;
    }
    if s.cap <= i {
        return false;
    }
    if s.field(i, RANK) != 0 {
        return false;
    }
    s.field(i, BACK) == p
}

// All slots, and all places of the stack.
#[tactic(auto, using(crate::proofs::CheckTurns::slots_end, crate::proofs::CheckTurns::slots_bad, crate::proofs::CheckTurns::place_bad, crate::proofs::CheckTurns::slots_turn))]
pub fn good_slots(s: View<'_>, top: u64, h: u64) -> bool
    requires h_le_cap { h ≤ s.cap }
    ensures { result ≡ slots_test s.entry.cap s.entry.words.now s.entry.cap top h }
{
    for i in (0..s.cap).rev() {
        if !good_slot(s, top, h, i) {
            return false;
        }
        if !good_place(s, h, i) {
            return false;
        }
    }
    true
}
