// The test between two neighbours of the chain: next and prev agree, and keys rise. Before the first and after the last stands no
// slot, for which the header's FIRST and LAST answer.
// A reader may rely on: each test is a definition of specs/inner/Joints, for any words.
// From the Rust: _check_invariants of ord/find.rs, its part on the chain.
ghost use Rattle.std.specs.Prelude.{◌≡◌};
ghost use Rattle.sound.specs.inner.Joints.{after_of, before_of, rises_test, join_test};

use arena::store::View;
use arena::words::{FIRST, KEY, LAST, NEXT, PREV};

// What the words say stands after x.
#[tactic(auto, unfolding(crate::specs::inner::Joints::after_of))]
fn after(s: View<'_>, x: u64) -> u64
    ensures { result ≡ after_of s.entry.words.now s.entry.cap x }
{
    if x < s.cap {
        return s.field(x, NEXT);
    }
    s.head(FIRST)
}

// What the words say stands before y.
#[tactic(auto, unfolding(crate::specs::inner::Joints::before_of))]
fn before(s: View<'_>, y: u64) -> u64
    ensures { result ≡ before_of s.entry.words.now s.entry.cap y }
{
    if y < s.cap {
        return s.field(y, PREV);
    }
    s.head(LAST)
}

// Rule 4 between x and y, where both are slots.
#[tactic(auto, unfolding(crate::specs::inner::Joints::rises_test))]
fn rises(s: View<'_>, x: u64, y: u64) -> bool
    ensures { result ≡ rises_test s.entry.words.now s.entry.cap x y }
{
    if s.cap <= x {
        return true;
    }
    if s.cap <= y {
        return true;
    }
    s.field(x, KEY) < s.field(y, KEY)
}

// y stands after x in the chain.
#[tactic(auto, unfolding(crate::specs::inner::Joints::join_test))]
pub fn joins(s: View<'_>, x: u64, y: u64) -> bool
    ensures { result ≡ join_test s.entry.words.now s.entry.cap x y }
{
    if after(s, x) != y {
        return false;
    }
    if before(s, y) != x {
        return false;
    }
    rises(s, x, y)
}
