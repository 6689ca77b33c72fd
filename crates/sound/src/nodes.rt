// The tests at one node of the tree: its back link, its generation, and rule 2 between its rank and its children's.
// A reader may rely on: each test is a definition of specs/inner/Nodes, for any words.
// From the Rust: _check_invariants of ord/find.rs, its part on links back and ranks.
ghost use Rattle.std.specs.Prelude.{◌≡◌, ◌<◌};
ghost use Rattle.sound.specs.inner.Nodes.{fits_test, generation_test, ranks_test, node_test};

use arena::store::View;
use arena::words::{BACK, GENERATION, LEFT, RANK, RIGHT};

// Rule 2 of a rank r over children of the ranks a and b. Differences, as a sum of two words may not fit.
#[tactic(auto, unfolding(crate::specs::inner::Nodes::fits_test))]
fn fits(r: u64, a: u64, b: u64) -> bool
    ensures { result ≡ fits_test r a b }
{
    if r <= a {
        return false;
    }
    if r <= b {
        return false;
    }
    if 2 < r - a {
        return false;
    }
    if 2 < r - b {
        return false;
    }
    if b < r - a - 1 {
        return false;
    }
    true
}

// Rule 6: "each generation in 1 to top".
#[tactic(auto, unfolding(crate::specs::inner::Nodes::generation_test))]
pub fn good_generation(g: u64, top: u64) -> bool
    ensures { result ≡ generation_test g top }
{
    if g < 1 {
        return false;
    }
    if top < g {
        return false;
    }
    true
}

// Rule 2 at the slot p.
#[tactic(auto, unfolding(crate::specs::inner::Nodes::ranks_test))]
fn good_ranks(s: View<'_>, p: u64) -> bool
    requires p_lt_cap { p < s.cap }
    ensures { result ≡ ranks_test s.entry.words.now s.entry.cap p }
{
    let r = s.field(p, RANK);
    let a = tree::rank_of(s, s.field(p, LEFT));
    let b = tree::rank_of(s, s.field(p, RIGHT));
    fits(r, a, b)
}

// The link p, found below the slot `back`, leads to a node that hangs there.
#[tactic(auto, unfolding(crate::specs::inner::Nodes::node_test))]
pub fn good_node(s: View<'_>, top: u64, back: u64, p: u64) -> bool
    ensures { result ≡ node_test s.entry.words.now s.entry.cap top back p }
{
    if s.cap <= p {
        return false;
    }
    if s.field(p, BACK) != back {
        return false;
    }
    if good_generation(s.field(p, GENERATION), top) {
        return good_ranks(s, p);
    }
    false
}
