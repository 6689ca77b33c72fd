// The tree's links in the store, one small step at a time: what placing and taking away are made of.
// LEFT + d.number is the child on the side d, RIGHT - d.number the other one. A link is tested before it is used.
// From the Rust: the repeated pieces of ord/insert.rs and ord/remove.rs.
#![tactic(auto)]

ghost use Rattle.std.specs.Prelude.{◌≡◌, ◌<◌};
ghost use Rattle.arena.specs.inner.Stored.{Becomes};
ghost use Rattle.tree.specs.inner.Links.{rank_of, side_of_child, with_back, relinked, with_node, with_child, spread_with};

use arena::store::{Store, View};
use arena::words::{BACK, LEFT, RANK, RIGHT, ROOT};
use handle::{Hand, Handle};

// After a turn of a climb: the ranks fit from here on, or the climb goes on at a node and its side on which the turn was.
#[derive(Clone, Copy)]
pub enum Climbed {
    Done,
    Up(u64, Hand),
}

// A node as it is to be written: its parent or no slot, its child on a side that is said beside it, its other child, its rank.
#[derive(Clone, Copy)]
pub struct Node {
    pub back: u64,
    pub near: u64,
    pub far: u64,
    pub rank: u64,
}

// The rank of a child that may be missing: "A missing child counts as rank 0."
#[tactic(auto, unfolding(crate::specs::inner::Links::rank_of))]
pub fn rank_of(s: View<'_>, p: u64) -> u64
    ensures { result ≡ rank_of s.entry.words.now s.entry.cap p }
{
    if p == Handle::NO_SLOT {
        return 0;
    }
    if s.cap <= p {
        return 0;
    }
    s.field(p, RANK)
}

// The side of p on which its child c stands: the right one where c is the right child, else the left one.
#[tactic(auto, unfolding(crate::specs::inner::Links::side_of_child))]
pub fn side_of(s: View<'_>, p: u64, c: u64) -> Hand
    requires p_lt_cap { p < s.cap }
    ensures { result ≡ side_of_child s.entry.words.now s.entry.cap p c }
{
    if s.field(p, RIGHT) == c {
        return Hand::RIGHT;
    }
    Hand::LEFT
}

// The back link of p becomes b, where p is a slot.
#[tactic(auto, unfolding(crate::specs::inner::Links::with_back))]
pub fn put_back(s: &mut Store<'_>, p: u64, b: u64)
    ensures { Becomes s.old s.new (with_back s.old.words.now s.old.cap p b) }
{
    if p < s.cap {
        s.put(p, BACK, b);
    }
}

// The child of p on the side d becomes c, where p is a slot; else c becomes the root.
#[tactic(auto, unfolding(crate::specs::inner::Links::with_child))]
pub fn put_child(s: &mut Store<'_>, p: u64, d: Hand, c: u64)
    ensures { Becomes s.old s.new (with_child s.old.words.now s.old.cap p d c) }
{
    if p < s.cap {
        s.put(p, LEFT + d.number, c);
    } else {
        s.put_head(ROOT, c);
    }
}

// Where p had the child `old`, it has `new`; above the root, `new` becomes the root.
#[tactic(auto, unfolding(crate::specs::inner::Links::relinked, crate::specs::inner::Links::with_child))]
pub fn relink(s: &mut Store<'_>, p: u64, old: u64, new: u64)
    ensures { Becomes s.old s.new (relinked s.old.words.now s.old.cap p old new) }
{
    if p < s.cap {
        let d = side_of(s.view(), p, old);
        s.put(p, LEFT + d.number, new);
    } else {
        s.put_head(ROOT, new);
    }
}

// The slot i becomes the node n, with its near child on the side d.
#[tactic(auto, unfolding(crate::specs::inner::Links::with_node))]
pub fn put_node(s: &mut Store<'_>, d: Hand, i: u64, n: Node)
    requires i_lt_cap { i < s.old.cap }
    ensures { Becomes s.old s.new (with_node s.old.words.now s.old.cap d i n) }
{
    s.put(i, BACK, n.back);
    s.put(i, LEFT + d.number, n.near);
    s.put(i, RIGHT - d.number, n.far);
    s.put(i, RANK, n.rank);
}

// y becomes m and z becomes n: both come under one node and part its children between them, which are the far child of m and the
// near one of n. What a double rotation writes before that node itself rises, after an insertion and after a removal.
#[tactic(auto, unfolding(crate::specs::inner::Links::spread_with))]
pub fn spread(s: &mut Store<'_>, d: Hand, y: u64, m: Node, z: u64, n: Node)
    requires y_lt_cap { y < s.old.cap }
    requires z_lt_cap { z < s.old.cap }
    ensures { Becomes s.old s.new (spread_with s.old.words.now s.old.cap d y m z n) }
{
    put_back(s, m.far, y);
    put_back(s, n.near, z);
    put_node(s, d, y, m);
    put_node(s, d, z, n);
}
