// Taking a node out of the tree: a leaf is lifted out, another node is replaced by its neighbour in the chain; then the ranks are mended.
// NotSound is answered on no sound store. The chain and the slot itself are left to the caller.
// From the Rust: internal_remove of ord/remove.rs.
ghost use Rattle.std.specs.Prelude.{◌≡◌, ◌<◌};
ghost use Rattle.arena.specs.inner.Stored.{SameLoan};
ghost use Rattle.remove.specs.inner.Take.{is_childless, settle_bare, settle_at, replacement_of, filled_by, take_out};

use crate::lifting;
use arena::store::{Store, View};
use arena::words::{LEFT, NEXT, PREV, RIGHT};
use handle::{Hand, Handle, Refusal};
use lower::climbing;
use tree::Climbed;

// Whether the node i has no child.
#[tactic(auto, unfolding(crate::specs::inner::Take::is_childless))]
fn childless(s: View<'_>, i: u64) -> bool
    requires i_lt_cap { i < s.cap }
    ensures { result ≡ is_childless s.entry.words.now s.entry.cap i }
{
    if s.field(i, LEFT) == Handle::NO_SLOT {
        return s.field(i, RIGHT) == Handle::NO_SLOT;
    }
    false
}

// "If that parent is left childless it gets rank 1 and the climb goes one up."
#[tactic(auto, using(tree::proofs::Climb::up_low), unfolding(crate::specs::inner::Take::settle_bare))]
fn settle_bare(s: &mut Store<'_>, q: u64) -> Result<(), Refusal>
    requires q_lt_cap { q < s.old.cap }
    ensures keeps { SameLoan s.old s.new }
    ensures result_after { (s.new.words.now, result) ≡ settle_bare s.old.words.now s.old.cap q }
{
    match climbing::lower_one(s, q, 1)? {
        Climbed::Up(p, d) => climbing::climb(s, p, d),
        Climbed::Done => Ok(()),
    }
}

// The ranks from q on, whose child on the side e lost a node; nothing to do where there is no node above.
#[tactic(auto, unfolding(crate::specs::inner::Take::settle_at))]
fn settle(s: &mut Store<'_>, q: u64, e: Hand) -> Result<(), Refusal>
    ensures keeps { SameLoan s.old s.new }
    ensures result_after { (s.new.words.now, result) ≡ settle_at s.old.words.now s.old.cap q e }
{
    if s.cap <= q {
        return Ok(());
    }
    if childless(s.view(), q) {
        return settle_bare(s, q);
    }
    climbing::climb(s, q, e)
}

// What replaces the node i, which has a child: its chain prev, or its next where it has no left child. On a sound store that is document
// 01's choice: a node with no left child has rank 2, and its prev, if it has one, stands above it.
#[tactic(auto, unfolding(crate::specs::inner::Take::replacement_of))]
fn replacement(s: View<'_>, i: u64) -> u64
    requires i_lt_cap { i < s.cap }
    ensures { result ≡ replacement_of s.entry.words.now s.entry.cap i }
{
    if s.field(i, LEFT) == Handle::NO_SLOT {
        return s.field(i, NEXT);
    }
    s.field(i, PREV)
}

// m leaves its place and takes i's; where it hung under i, the ranks are mended from m on.
#[tactic(auto, unfolding(crate::specs::inner::Take::filled_by, crate::specs::inner::Take::filled_from))]
fn fill(s: &mut Store<'_>, i: u64, m: u64) -> Result<(), Refusal>
    requires i_lt_cap { i < s.old.cap }
    requires m_lt_cap { m < s.old.cap }
    ensures keeps { SameLoan s.old s.new }
    ensures result_after { (s.new.words.now, result) ≡ filled_by s.old.words.now s.old.cap i m }
{
    let at = lifting::lift(s, m);
    lifting::replace(s, i, m);
    if at.under == i {
        return settle(s, m, at.side);
    }
    settle(s, at.under, at.side)
}

// The node i leaves the tree.
#[tactic(auto, unfolding(crate::specs::inner::Take::take_out, crate::specs::inner::Take::closed_from, crate::specs::inner::Take::take_over))]
pub fn take_out(s: &mut Store<'_>, i: u64) -> Result<(), Refusal>
    requires i_lt_cap { i < s.old.cap }
    ensures keeps { SameLoan s.old s.new }
    ensures result_after { (s.new.words.now, result) ≡ take_out s.old.words.now s.old.cap i }
{
    if childless(s.view(), i) {
        let at = lifting::lift(s, i);
        return settle(s, at.under, at.side);
    }
    let m = replacement(s.view(), i);
    if s.cap <= m {
        return Err(Refusal::NotSound);
    }
    fill(s, i, m)
}
