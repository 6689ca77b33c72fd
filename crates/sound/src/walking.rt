// The walk of the tree, left to right, from a link down: every node is tested, and each entry is joined to the one before it.
// It goes no deeper than its budget, whatever the words hold, and meets no slot twice: a slot has one PREV, so time grows with the
// capacity. From the Rust: _check_invariants of ord/find.rs.
ghost use Rattle.std.specs.Prelude.{◌≡◌};
ghost use Rattle.sound.specs.inner.Walking.{walk_model, whole_test};

use crate::{joints, nodes};
use arena::store::View;
use arena::words::{BUDGET, LEFT, RIGHT, ROOT};
use handle::Handle;

// Walks what hangs at the link p below the slot `back`, after the slot q. n more levels may be entered. The answer is the slot met last,
// or none where a test failed.
#[tactic(auto, using(crate::proofs::CheckTurns::node_low, crate::proofs::CheckTurns::walk_tip, crate::proofs::CheckTurns::walk_spent, crate::proofs::CheckTurns::walk_refused, crate::proofs::CheckTurns::walk_broken, crate::proofs::CheckTurns::walk_apart, crate::proofs::CheckTurns::walk_on))]
fn walk(s: View<'_>, top: u64, n: u64, back: u64, p: u64, q: u64) -> Option<u64>
    ensures { result ≡ walk_model n s.entry.words.now s.entry.cap top back p q }
{
    if p == Handle::NO_SLOT {
        return Some(q);
    }
    if n < 1 {
        return None;
    }
    if !nodes::good_node(s, top, back, p) {
        return None;
    }
    let left = s.field(p, LEFT);
    let right = s.field(p, RIGHT);
    let x = walk(s, top, n - 1, p, left, q)?;
    if !joints::joins(s, x, p) {
        return None;
    }
    walk(s, top, n - 1, p, right, p)
}

// The whole tree and the whole chain.
#[tactic(auto, unfolding(crate::specs::inner::Walking::whole_test, arena::specs::inner::Budget::budget))]
pub fn good_tree(s: View<'_>, top: u64) -> bool
    ensures { result ≡ whole_test s.entry.words.now s.entry.cap top }
{
    let root = s.head(ROOT);
    let Some(x) = walk(s, top, BUDGET, Handle::NO_SLOT, root, Handle::NO_SLOT) else {
        return false;
    };
    joints::joins(s, x, Handle::NO_SLOT)
}
