// Lifting a node with at most one child out of the tree, and setting such a node in another's place.
// A replacement is lifted out first and then takes the removed node's place, so that it may have stood right under it.
// From the Rust: the first loop of ord/remove.rs, which replaces first and has that case apart.
ghost use Rattle.std.specs.Prelude.{◌≡◌, ◌<◌};
ghost use Rattle.arena.specs.inner.Stored.{Becomes, SameLoan};
ghost use Rattle.remove.specs.inner.Lift.{only_child, side_under, lift_out, stands_in, node_replaced};

use arena::store::{Store, View};
use arena::words::{BACK, LEFT, RANK, RIGHT};
use handle::{Hand, Handle};
use tree::Node;

// Where a node was lifted out: its parent, and the side on which it hung.
#[derive(Drop)]
pub struct Lifted {
    pub under: u64,
    pub side: Hand,
}

// The child of m, which has at most one: the left one if there is one, else what stands on the right.
#[tactic(auto, unfolding(crate::specs::inner::Lift::only_child))]
fn only_child(s: View<'_>, m: u64) -> u64
    requires m_lt_cap { m < s.cap }
    ensures { result ≡ only_child s.entry.words.now s.entry.cap m }
{
    let l = s.field(m, LEFT);
    if l == Handle::NO_SLOT {
        return s.field(m, RIGHT);
    }
    l
}

// The side on which m hangs under q; a root hangs on the left of nothing.
#[tactic(auto, unfolding(crate::specs::inner::Lift::side_under))]
fn side_under(s: View<'_>, q: u64, m: u64) -> Hand
    ensures { result ≡ side_under s.entry.words.now s.entry.cap q m }
{
    if q < s.cap {
        return tree::side_of(s, q, m);
    }
    Hand::LEFT
}

// The child of m comes to hang where m hung; where m was the root, the child or no slot becomes the root.
#[tactic(auto, unfolding(crate::specs::inner::Lift::lift_out, crate::specs::inner::Lift::lift_with, crate::specs::inner::Lift::hung_up))]
pub fn lift(s: &mut Store<'_>, m: u64) -> Lifted
    requires m_lt_cap { m < s.old.cap }
    ensures keeps { SameLoan s.old s.new }
    ensures result_after { (s.new.words.now, result) ≡ lift_out s.old.words.now s.old.cap m }
{
    let c = only_child(s.view(), m);
    let q = s.field(m, BACK);
    let e = side_under(s.view(), q, m);
    tree::put_child(s, q, e, c);
    tree::put_back(s, c, q);
    Lifted { under: q, side: e }
}

// m stands where i stood, as the node n, whose near child is the left one.
#[tactic(auto, unfolding(crate::specs::inner::Lift::stands_in))]
fn stand(s: &mut Store<'_>, i: u64, m: u64, n: Node)
    requires m_lt_cap { m < s.old.cap }
    ensures { Becomes s.old s.new (stands_in s.old.words.now s.old.cap i m n) }
{
    tree::put_node(s, Hand::LEFT, m, n);
    tree::put_back(s, n.near, m);
    tree::put_back(s, n.far, m);
    tree::relink(s, n.back, i, m);
}

// "the replacement takes its rank and place"
#[tactic(auto, unfolding(crate::specs::inner::Lift::node_replaced))]
pub fn replace(s: &mut Store<'_>, i: u64, m: u64)
    requires i_lt_cap { i < s.old.cap }
    requires m_lt_cap { m < s.old.cap }
    ensures { Becomes s.old s.new (node_replaced s.old.words.now s.old.cap i m) }
{
    let near = s.field(i, LEFT);
    let far = s.field(i, RIGHT);
    let back = s.field(i, BACK);
    let rank = s.field(i, RANK);
    let n = Node {
        back,
        near,
        far,
        rank,
    };
    stand(s, i, m, n);
}
