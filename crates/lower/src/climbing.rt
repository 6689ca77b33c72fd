// The climb after a removal: from the parent n1 of the emptied place, ranks are lowered up the tree until they fit or a rotation mends them.
// Each turn is a function of its own that tells the loop whether to go on; the loop has a budget that a sound store never meets.
// From the Rust: the second loop of ord/remove.rs.
ghost use Rattle.std.specs.Prelude.{◌≡◌, ◌<◌};
ghost use Rattle.arena.specs.inner.Stored.{SameLoan};
ghost use Rattle.arena.specs.inner.Budget.{budget};
ghost use Rattle.tree.specs.inner.Climb.{Standing};
ghost use Rattle.lower.specs.inner.Climb.{go_up, lower_one, lowered_both, climb_past_with, climb_past, climb_at, climb_turn, lower_from};

use crate::turns;
use crate::turns::Turn;
use arena::store::{Store, View};
use arena::words::{BACK, BUDGET, LEFT, RANK, RIGHT};
use handle::{Hand, Refusal};
use tree::Climbed;

// Where a turn is taken: n1, its child n0 that lost a rank, its other child s0, and the ranks of n0 and n1.
#[derive(Drop)]
pub struct Site {
    pub n0: u64,
    pub n1: u64,
    pub s0: u64,
    pub rank0: u64,
    pub rank1: u64,
}

// One up from p1, which lost a rank.
#[tactic(auto, unfolding(crate::specs::inner::Climb::go_up, crate::specs::inner::Climb::go_up_to))]
fn go_up(s: View<'_>, p1: u64) -> Result<Climbed, Refusal>
    requires p1_lt_cap { p1 < s.cap }
    ensures value { result ≡ go_up s.entry.words.now s.entry.cap p1 }
    ensures standing { Standing s.entry.cap result }
{
    let p2 = s.field(p1, BACK);
    if p2 < s.cap {
        let d = tree::side_of(s, p2, p1);
        return Ok(Climbed::Up(p2, d));
    }
    Ok(Climbed::Done)
}

// n1 gets a lower rank, and the climb goes one up.
#[tactic(auto, unfolding(crate::specs::inner::Climb::lower_one, crate::specs::inner::Climb::upward))]
pub fn lower_one(s: &mut Store<'_>, p1: u64, rank: u64) -> Result<Climbed, Refusal>
    requires p1_lt_cap { p1 < s.old.cap }
    ensures keeps { SameLoan s.old s.new }
    ensures result_after { (s.new.words.now, result) ≡ lower_one s.old.words.now s.old.cap p1 rank }
    ensures standing { Standing s.old.cap result }
{
    s.put(p1, RANK, rank);
    go_up(s.view(), p1)
}

// "both two below s0, lower n1 and s0 and climb"
#[tactic(auto, using(arena::proofs::Budget::raising), unfolding(crate::specs::inner::Climb::lowered_both))]
fn lower_both(s: &mut Store<'_>, p1: u64, s0: u64, rank0: u64) -> Result<Climbed, Refusal>
    requires p1_lt_cap { p1 < s.old.cap }
    requires s0_lt_cap { s0 < s.old.cap }
    requires rank0_lt_budget { rank0 < budget }
    ensures keeps { SameLoan s.old s.new }
    ensures result_after { (s.new.words.now, result) ≡ lowered_both s.old.words.now s.old.cap p1 s0 rank0 }
    ensures standing { Standing s.old.cap result }
{
    s.put(s0, RANK, rank0 + 1);
    lower_one(s, p1, rank0 + 2)
}

// A rotation, or n1 and s0 are lowered: by the ranks of a and b under s0, whose rank rs is one below n1's.
#[tactic(auto, unfolding(crate::specs::inner::Climb::climb_past_with, arena::specs::inner::Budget::budget))]
fn climb_by(
    s: &mut Store<'_>,
    d: Hand,
    t: Turn,
    rank0: u64,
    rs: u64,
    rb: u64,
) -> Result<Climbed, Refusal>
    requires n1_lt_cap { t.n1 < s.old.cap }
    requires s0_lt_cap { t.s0 < s.old.cap }
    requires rank0_lt_budget { rank0 < budget }
    ensures keeps { SameLoan s.old s.new }
    ensures result_after { (s.new.words.now, result) ≡ climb_past_with s.old.words.now s.old.cap d t rank0 rs rb }
    ensures standing { Standing s.old.cap result }
{
    if BUDGET <= t.ra {
        return Err(Refusal::NotSound);
    }
    if BUDGET <= rb {
        return Err(Refusal::NotSound);
    }
    if rb + 1 == rs {
        turns::turn_once(s, d, t);
        return Ok(Climbed::Done);
    }
    if t.ra + 2 == rs {
        return lower_both(s, t.n1, t.s0, rank0);
    }
    if s.cap <= t.a {
        return Err(Refusal::NotSound);
    }
    turns::turn_twice(s, d, t);
    Ok(Climbed::Done)
}

// The turn where the sibling s0 has the rank rs, one below n1: its children a and b are read, with n2 above n1.
#[tactic(auto, unfolding(crate::specs::inner::Climb::climb_past))]
fn climb_past(s: &mut Store<'_>, d: Hand, p: Site, rs: u64) -> Result<Climbed, Refusal>
    requires n1_lt_cap { p.n1 < s.old.cap }
    requires s0_lt_cap { p.s0 < s.old.cap }
    requires rank0_lt_budget { p.rank0 < budget }
    ensures keeps { SameLoan s.old s.new }
    ensures result_after { (s.new.words.now, result) ≡ climb_past s.old.words.now s.old.cap d p rs }
    ensures standing { Standing s.old.cap result }
{
    let a = s.field(p.s0, LEFT + d.number);
    let b = s.field(p.s0, RIGHT - d.number);
    let ra = tree::rank_of(s.view(), a);
    let rb = tree::rank_of(s.view(), b);
    let n2 = s.field(p.n1, BACK);
    let t = Turn {
        n0: p.n0,
        n1: p.n1,
        n2,
        s0: p.s0,
        a,
        b,
        ra,
        rank1: p.rank1,
    };
    climb_by(s, d, t, p.rank0, rs, rb)
}

// The turn where n1 is three above n0: by the rank of its sibling s0.
#[tactic(auto, unfolding(crate::specs::inner::Climb::climb_at, crate::specs::inner::Climb::climb_at_with, arena::specs::inner::Budget::budget))]
fn climb_at(s: &mut Store<'_>, d: Hand, p: Site) -> Result<Climbed, Refusal>
    requires n1_lt_cap { p.n1 < s.old.cap }
    requires s0_lt_cap { p.s0 < s.old.cap }
    requires rank0_lt_budget { p.rank0 < budget }
    ensures keeps { SameLoan s.old s.new }
    ensures result_after { (s.new.words.now, result) ≡ climb_at s.old.words.now s.old.cap d p }
    ensures standing { Standing s.old.cap result }
{
    let rs = s.field(p.s0, RANK);
    if BUDGET <= rs {
        return Err(Refusal::NotSound);
    }
    if rs + 2 == p.rank1 {
        return lower_one(s, p.n1, rs + 1);
    }
    climb_past(s, d, p, rs)
}

// One turn at n1, whose child n0 on the side d lost a rank.
#[tactic(auto, unfolding(crate::specs::inner::Climb::climb_turn, crate::specs::inner::Climb::climb_turn_with, arena::specs::inner::Budget::budget))]
fn climb_turn(s: &mut Store<'_>, p1: u64, d: Hand) -> Result<Climbed, Refusal>
    requires p1_lt_cap { p1 < s.old.cap }
    ensures keeps { SameLoan s.old s.new }
    ensures result_after { (s.new.words.now, result) ≡ climb_turn s.old.words.now s.old.cap p1 d }
    ensures standing { Standing s.old.cap result }
{
    let p0 = s.field(p1, LEFT + d.number);
    let s0 = s.field(p1, RIGHT - d.number);
    let rank1 = s.field(p1, RANK);
    let rank0 = tree::rank_of(s.view(), p0);
    if BUDGET <= rank0 {
        return Err(Refusal::NotSound);
    }
    if rank1 <= rank0 + 2 {
        return Ok(Climbed::Done);
    }
    if s.cap <= s0 {
        return Err(Refusal::NotSound);
    }
    let p = Site {
        n0: p0,
        n1: p1,
        s0,
        rank0,
        rank1,
    };
    climb_at(s, d, p)
}

// The climb from a node whose child on that side lost a rank. It ends on every sound store; else it is refused.
#[tactic(auto, using(crate::proofs::ClimbLoop::turns), unfolding(arena::specs::inner::Budget::budget))]
pub fn climb(s: &mut Store<'_>, start: u64, side: Hand) -> Result<(), Refusal>
    requires start_lt_cap { start < s.old.cap }
    ensures keeps { SameLoan s.old s.new }
    ensures result_after { (s.new.words.now, result) ≡ lower_from budget s.old.words.now s.old.cap start side }
{
    let mut p1 = start;
    let mut d = side;
    for _ in 0..BUDGET {
        match climb_turn(s, p1, d)? {
            Climbed::Up(p2, d2) => {
                p1 = p2;
                d = d2;
            }
            Climbed::Done => return Ok(()),
        }
    }
    Err(Refusal::NotSound)
}
