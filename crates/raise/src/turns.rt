// The two restructures after a new entry, each one piece of code over the side: n2 hands its place to n1 or to n0.
// A caller relies on the equality with specs/inner/Restructures.antt; slots that it has tested are required to lie below the capacity.
// From the Rust: the nonalternating and the alternating case of rebalance_inserted (ord/insert.rs).
ghost use Rattle.std.specs.Prelude.{◌≡◌, ◌<◌};
ghost use Rattle.arena.specs.inner.Stored.{Becomes};
ghost use Rattle.raise.specs.inner.Restructures.{lifted_one, turned_same, spread_below, turned_across};

use arena::store::Store;
use arena::words::{BACK, LEFT, RANK, RIGHT};
use handle::Hand;
use tree::Node;

// The slots of a restructure: n0 under n1 under n2, n3 above n2 or no slot, and s1, the other child of n2.
#[derive(Clone, Copy)]
pub struct Turn {
    pub n0: u64,
    pub n1: u64,
    pub n2: u64,
    pub n3: u64,
    pub s1: u64,
}

// n1 takes the place of n2 below n3: n2 hangs on its other side, with s0 on the side d, s1 on the other one and the given rank.
#[tactic(auto, unfolding(crate::specs::inner::Restructures::lifted_one))]
fn lift_one(s: &mut Store<'_>, d: Hand, t: Turn, s0: u64, rank0: u64)
    requires n1_lt_cap { t.n1 < s.old.cap }
    requires n2_lt_cap { t.n2 < s.old.cap }
    ensures { Becomes s.old s.new (lifted_one s.old.words.now s.old.cap d t s0 rank0) }
{
    let low = Node {
        back: t.n1,
        near: s0,
        far: t.s1,
        rank: rank0,
    };
    tree::put_back(s, s0, t.n2);
    s.put(t.n1, RIGHT - d.number, t.n2);
    s.put(t.n1, BACK, t.n3);
    tree::put_node(s, d, t.n2, low);
    tree::relink(s, t.n3, t.n2, t.n1);
}

// "both edges on one side, n1 takes n2's place and n2 gets n0's rank": the side is d.
#[tactic(auto, unfolding(crate::specs::inner::Restructures::turned_same))]
pub fn turn_same(s: &mut Store<'_>, d: Hand, t: Turn)
    requires n0_lt_cap { t.n0 < s.old.cap }
    requires n1_lt_cap { t.n1 < s.old.cap }
    requires n2_lt_cap { t.n2 < s.old.cap }
    ensures { Becomes s.old s.new (turned_same s.old.words.now s.old.cap d t) }
{
    let s0 = s.field(t.n1, RIGHT - d.number);
    let rank0 = s.field(t.n0, RANK);
    lift_one(s, d, t, s0, rank0);
}

// n1 and n2 become the children of n0: n1 keeps its child on the side d, n2 keeps s1, and they part the children of n0; both get its rank.
#[tactic(auto, unfolding(crate::specs::inner::Restructures::spread_below))]
fn spread_below(s: &mut Store<'_>, d: Hand, t: Turn)
    requires n0_lt_cap { t.n0 < s.old.cap }
    requires n1_lt_cap { t.n1 < s.old.cap }
    requires n2_lt_cap { t.n2 < s.old.cap }
    ensures { Becomes s.old s.new (spread_below s.old.words.now s.old.cap d t) }
{
    let c = s.field(t.n0, LEFT + d.number);
    let e = s.field(t.n0, RIGHT - d.number);
    let rank = s.field(t.n0, RANK);
    let s0 = s.field(t.n1, LEFT + d.number);
    let one = Node {
        back: t.n0,
        near: s0,
        far: c,
        rank,
    };
    let two = Node {
        back: t.n0,
        near: e,
        far: t.s1,
        rank,
    };
    tree::spread(s, d, t.n1, one, t.n2, two);
}

// "edges alternating, n0 takes n2's place with n1's rank, and n1 and n2 get n0's old rank": d is the side of n1 under n2.
#[tactic(auto, unfolding(crate::specs::inner::Restructures::turned_across))]
pub fn turn_across(s: &mut Store<'_>, d: Hand, t: Turn)
    requires n0_lt_cap { t.n0 < s.old.cap }
    requires n1_lt_cap { t.n1 < s.old.cap }
    requires n2_lt_cap { t.n2 < s.old.cap }
    ensures { Becomes s.old s.new (turned_across s.old.words.now s.old.cap d t) }
{
    let rank = s.field(t.n1, RANK);
    let high = Node {
        back: t.n3,
        near: t.n1,
        far: t.n2,
        rank,
    };
    spread_below(s, d, t);
    tree::put_node(s, d, t.n0, high);
    tree::relink(s, t.n3, t.n2, t.n0);
}
