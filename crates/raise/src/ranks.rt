// The ranks after a new entry n0 under n1: from there up, until the ranks are in order again or one restructure has put them so.
// A caller relies on the equality with specs/inner/Ranks.antt. A refusal says that the words hold no sound queue.
// From the Rust: rebalance_inserted of ord/insert.rs. The climb has a budget, so that it ends on any words.
ghost use Rattle.std.specs.Prelude.{◌≡◌, ◌<◌, eqb};
ghost use Rattle.arena.specs.Branch.{ifte};
ghost use Rattle.arena.specs.inner.Stored.{Becomes, SameLoan};
ghost use Rattle.arena.specs.inner.Budget.{budget};
ghost use Rattle.tree.specs.inner.Climb.{Standing};
ghost use Rattle.raise.specs.inner.Restructures.{turned_same, turned_across};
ghost use Rattle.raise.specs.inner.Ranks.{raised_up, fix_turn, raise_from, climbed_above, rebalanced};

use crate::turns;
use crate::turns::Turn;
use arena::store::Store;
use arena::words::{BACK, BUDGET, RANK, RIGHT};
use handle::{Hand, Refusal};
use tree::Climbed;

// "raise n2 by one and climb": n2's rank becomes one more than n1's rank r1, and p3 above it is next.
#[tactic(auto, using(arena::proofs::Budget::raising), unfolding(crate::specs::inner::Ranks::raised_up, crate::specs::inner::Ranks::above))]
fn raise(s: &mut Store<'_>, p2: u64, p3: u64, r1: u64) -> Result<Climbed, Refusal>
    requires p2_lt_cap { p2 < s.old.cap }
    requires r1_lt_budget { r1 < budget }
    ensures keeps { SameLoan s.old s.new }
    ensures result_after { (s.new.words.now, result) ≡ raised_up s.old.words.now s.old.cap p2 p3 r1 }
    ensures standing { Standing s.old.cap result }
{
    s.put(p2, RANK, r1 + 1);
    if p3 < s.cap {
        let d = tree::side_of(s.view(), p3, p2);
        return Ok(Climbed::Up(p3, d));
    }
    Ok(Climbed::Done)
}

// One turn: n0 under n1 on the side d01, n1 under n2 on the side d12.
#[tactic(auto, unfolding(crate::specs::inner::Ranks::fix_turn, crate::specs::inner::Ranks::fix_with, arena::specs::inner::Budget::budget))]
fn fix_turn(
    s: &mut Store<'_>,
    p0: u64,
    p1: u64,
    p2: u64,
    d01: Hand,
    d12: Hand,
) -> Result<Climbed, Refusal>
    requires p0_lt_cap { p0 < s.old.cap }
    requires p1_lt_cap { p1 < s.old.cap }
    requires p2_lt_cap { p2 < s.old.cap }
    ensures keeps { SameLoan s.old s.new }
    ensures result_after { (s.new.words.now, result) ≡ fix_turn s.old.words.now s.old.cap p0 p1 p2 d01 d12 }
    ensures standing { Standing s.old.cap result }
{
    let r1 = s.field(p1, RANK);
    let r2 = s.field(p2, RANK);
    let t = Turn {
        n0: p0,
        n1: p1,
        n2: p2,
        n3: s.field(p2, BACK),
        s1: s.field(p2, RIGHT - d12.number),
    };
    let rs1 = tree::rank_of(s.view(), t.s1);
    if r1 < r2 {
        return Ok(Climbed::Done);
    }
    if BUDGET <= r1 {
        return Err(Refusal::NotSound);
    }
    if BUDGET <= rs1 {
        return Err(Refusal::NotSound);
    }
    if rs1 + 1 == r2 {
        return raise(s, p2, t.n3, r1);
    }
    restructure(s, d01, d12, t);
    Ok(Climbed::Done)
}

// What ends a climb: n0 and n1 stand on one side, or across.
fn restructure(s: &mut Store<'_>, d01: Hand, d12: Hand, t: Turn)
    requires n0_lt_cap { t.n0 < s.old.cap }
    requires n1_lt_cap { t.n1 < s.old.cap }
    requires n2_lt_cap { t.n2 < s.old.cap }
    ensures { Becomes s.old s.new (ifte (eqb d01 d12) (turned_same s.old.words.now s.old.cap d01 t) (turned_across s.old.words.now s.old.cap d12 t)) }
{
    if d01 == d12 {
        turns::turn_same(s, d01, t);
    } else {
        turns::turn_across(s, d12, t);
    }
}

// The climb from three nodes, each the parent of the one before it.
#[tactic(auto, using(crate::proofs::Climbs::turns), unfolding(arena::specs::inner::Budget::budget))]
fn climb(s: &mut Store<'_>, q0: u64, q1: u64, q2: u64, e01: Hand, e12: Hand) -> Result<(), Refusal>
    requires q0_lt_cap { q0 < s.old.cap }
    requires q1_lt_cap { q1 < s.old.cap }
    requires q2_lt_cap { q2 < s.old.cap }
    ensures keeps { SameLoan s.old s.new }
    ensures result_after { (s.new.words.now, result) ≡ raise_from budget s.old.words.now s.old.cap q0 q1 q2 e01 e12 }
{
    let mut p0 = q0;
    let mut p1 = q1;
    let mut p2 = q2;
    let mut d01 = e01;
    let mut d12 = e12;
    for _ in 0..BUDGET {
        match fix_turn(s, p0, p1, p2, d01, d12)? {
            Climbed::Up(p3, d) => {
                p0 = p1;
                p1 = p2;
                p2 = p3;
                d01 = d12;
                d12 = d;
            }
            Climbed::Done => return Ok(()),
        }
    }
    Err(Refusal::NotSound)
}

// The climb from n1, which has just become rank 2; its parent is p2, if it has one.
#[tactic(auto, unfolding(crate::specs::inner::Ranks::climbed_above, crate::specs::inner::Ranks::climbed_to))]
fn climb_above(s: &mut Store<'_>, p0: u64, p1: u64) -> Result<(), Refusal>
    requires p0_lt_cap { p0 < s.old.cap }
    requires p1_lt_cap { p1 < s.old.cap }
    ensures keeps { SameLoan s.old s.new }
    ensures result_after { (s.new.words.now, result) ≡ climbed_above s.old.words.now s.old.cap p0 p1 }
{
    let p2 = s.field(p1, BACK);
    if s.cap <= p2 {
        return Ok(());
    }
    let d01 = tree::side_of(s.view(), p1, p0);
    let d12 = tree::side_of(s.view(), p2, p1);
    climb(s, p0, p1, p2, d01, d12)
}

// "Ranks after a new entry n0 (rank 1) under n1: if n1 had rank 2, stop. Else n1 becomes 2." A climb that does not end is refused.
#[tactic(auto, unfolding(crate::specs::inner::Ranks::rebalanced))]
pub fn rebalance(s: &mut Store<'_>, p0: u64, p1: u64) -> Result<(), Refusal>
    requires p0_lt_cap { p0 < s.old.cap }
    requires p1_lt_cap { p1 < s.old.cap }
    ensures keeps { SameLoan s.old s.new }
    ensures result_after { (s.new.words.now, result) ≡ rebalanced s.old.words.now s.old.cap p0 p1 }
{
    if s.field(p1, RANK) == 2 {
        return Ok(());
    }
    s.put(p1, RANK, 2);
    climb_above(s, p0, p1)
}
