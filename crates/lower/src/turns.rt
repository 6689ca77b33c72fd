// The two rotations of a removal, one piece of code over the side d: n0 stands on the side d of n1, the sibling s0 on the other.
// The slots and ranks that the caller has read are handed in; a rotation writes the links and the ranks of the nodes that move.
// From the Rust: the restructuring of ord/remove.rs.
ghost use Rattle.std.specs.Prelude.{◌≡◌, ◌<◌};
ghost use Rattle.arena.specs.inner.Stored.{Becomes};
ghost use Rattle.arena.specs.inner.Budget.{budget};
ghost use Rattle.lower.specs.inner.Rotations.{turn_once, turn_twice};

use arena::store::Store;
use arena::words::{LEFT, RIGHT};
use handle::Hand;
use tree::Node;

// What a rotation is made of: slots, and two ranks.
#[derive(Drop)]
pub struct Turn {
    // the child of n1 that lost a rank, or no slot where the place is empty
    pub n0: u64,
    pub n1: u64,
    // what stands above n1, or no slot
    pub n2: u64,
    // the sibling of n0, its inner child and its outer one
    pub s0: u64,
    pub a: u64,
    pub b: u64,
    // the ranks of a and of n1
    pub ra: u64,
    pub rank1: u64,
}

// "rotate s0 up to n1's old rank, and n1 to a's rank plus 1"
#[tactic(auto, using(arena::proofs::Budget::raising), unfolding(crate::specs::inner::Rotations::turn_once))]
pub fn turn_once(s: &mut Store<'_>, d: Hand, t: Turn)
    requires n1_lt_cap { t.n1 < s.old.cap }
    requires s0_lt_cap { t.s0 < s.old.cap }
    requires ra_lt_budget { t.ra < budget }
    ensures { Becomes s.old s.new (turn_once s.old.words.now s.old.cap d t) }
{
    tree::put_back(s, t.a, t.n1);
    let rank = t.ra + 1;
    let low = Node {
        back: t.s0,
        near: t.n0,
        far: t.a,
        rank,
    };
    let high = Node {
        back: t.n2,
        near: t.n1,
        far: t.b,
        rank: t.rank1,
    };
    tree::put_node(s, d, t.n1, low);
    tree::put_node(s, d, t.s0, high);
    tree::relink(s, t.n2, t.n1, t.s0);
}

// "a rises to n1's old rank, n1 and s0 get a's old rank."
#[tactic(auto, unfolding(crate::specs::inner::Rotations::turn_twice, crate::specs::inner::Rotations::turn_twice_with))]
pub fn turn_twice(s: &mut Store<'_>, d: Hand, t: Turn)
    requires n1_lt_cap { t.n1 < s.old.cap }
    requires s0_lt_cap { t.s0 < s.old.cap }
    requires a_lt_cap { t.a < s.old.cap }
    ensures { Becomes s.old s.new (turn_twice s.old.words.now s.old.cap d t) }
{
    let c = s.field(t.a, LEFT + d.number);
    let e = s.field(t.a, RIGHT - d.number);
    let one = Node {
        back: t.a,
        near: t.n0,
        far: c,
        rank: t.ra,
    };
    let other = Node {
        back: t.a,
        near: e,
        far: t.b,
        rank: t.ra,
    };
    let high = Node {
        back: t.n2,
        near: t.n1,
        far: t.s0,
        rank: t.rank1,
    };
    tree::spread(s, d, t.n1, one, t.s0, other);
    tree::put_node(s, d, t.a, high);
    tree::relink(s, t.n2, t.n1, t.a);
}
