// The check: whether a store is sound, for any words at all. It changes nothing.
// First the header, then each slot and each place of the free stack by single words, then tree and chain by one walk from the root.
// From the Rust: _check_invariants of ord/find.rs, with the rules that document 01 adds.
#![tactic(auto)]

ghost use Rattle.std.specs.Prelude.{◌≡◌};
ghost use Rattle.sound.specs.inner.Check.{top_test, unused_test, rules_test};
ghost use Rattle.sound.specs.Decides.{Decides};

use arena::header;
use arena::store::View;
use arena::words::{HEIGHT, TOP};
use handle::TOP_LIMIT;

pub mod joints;
pub mod nodes;
pub mod slots;
pub mod walking;

// Rule 6: "The top lies in its range".
#[tactic(auto, unfolding(crate::specs::inner::Check::top_test, handle::specs::Numbers::top_limit))]
fn good_top(top: u64) -> bool
    ensures { result ≡ top_test top }
{
    if top < 1 {
        return false;
    }
    if TOP_LIMIT < top {
        return false;
    }
    true
}

// Rule 7 of the header: the ten words behind ROOT.
#[tactic(auto, using(crate::proofs::CheckTurns::unused_end, crate::proofs::CheckTurns::unused_bad, crate::proofs::CheckTurns::unused_turn))]
fn unused(s: View<'_>) -> bool
    ensures { result ≡ unused_test 10 s.entry.words.now }
{
    for k in (0..10).rev() {
        if s.head(6 + k) != 0 {
            return false;
        }
    }
    true
}

// Rules 1 to 7 of a store whose header passes.
#[tactic(auto, unfolding(crate::specs::inner::Check::rules_test, crate::specs::inner::Check::rules_with))]
fn good_rules(s: View<'_>) -> bool
    ensures { result ≡ rules_test s.entry.words.now s.entry.cap }
{
    let top = s.head(TOP);
    let h = s.head(HEIGHT);
    if s.cap < h {
        return false;
    }
    if !good_top(top) {
        return false;
    }
    if !unused(s) {
        return false;
    }
    if slots::good_slots(s, top, h) {
        return walking::good_tree(s, top);
    }
    false
}

// Whether the store is sound: true exactly when it is, for any words, short stores included.
pub fn sound(s: &[u64]) -> bool
    ensures { Decides s.now result }
{
    let Ok(cap) = header::test(s) else {
        return false;
    };
    good_rules(View { words: s, cap })
}
