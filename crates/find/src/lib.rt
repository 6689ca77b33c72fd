// The search: from the root, left if less and right if greater, to an equal key or to a missing child.
// It leaves its loop with the answer in hand: node, side, and how many nodes were looked at.
// From the Rust: find_similar_key of ord/find.rs. Two things differ: the count, and that the loop ends on any words, after BUDGET nodes.
#![tactic(auto)]

ghost use Rattle.std.specs.Prelude.{◌≡◌};
ghost use Rattle.find.specs.inner.Seeking.{side_of_key, seek_model, FoundIn};

use arena::store::View;
use arena::words::{BUDGET, KEY, LEFT, ROOT};
use handle::{Hand, Handle, Refusal};

// What a search comes to. The last number is the count of nodes looked at.
#[derive(Clone, Copy)]
pub enum Found {
    // the slot whose key is equal
    Equal(u64, u64),
    // the last slot looked at, and the side of it, left for less, on which the key has its place
    Beside(u64, Hand, u64),
    Empty,
}

// The side of a node's key on which k lies: left where it is less. It stands alone so that the search has no branch on the side, which
// no processor foresees: a side is added to LEFT.
#[tactic(auto, unfolding(crate::specs::inner::Seeking::side_of_key))]
fn side_of(k: u64, key: u64) -> Hand
    ensures { result ≡ side_of_key k key }
{
    if k < key {
        return Hand::LEFT;
    }
    Hand::RIGHT
}

// Searches for the stored key k.
#[tactic(auto, using(crate::proofs::SeekTurns::turns), unfolding(arena::specs::inner::Budget::budget))]
pub fn seek(s: View<'_>, k: u64) -> Result<Found, Refusal>
    ensures value { result ≡ seek_model s.entry.words.now s.entry.cap k }
    ensures found_in { FoundIn s.entry.cap result }
{
    let root = s.head(ROOT);
    if root == Handle::NO_SLOT {
        return Ok(Found::Empty);
    }
    let mut p = root;
    for n in 0..BUDGET {
        if s.cap <= p {
            return Err(Refusal::NotSound);
        }
        let looked = n + 1;
        let key = s.field(p, KEY);
        if key == k {
            return Ok(Found::Equal(p, looked));
        }
        let d = side_of(k, key);
        let q = s.field(p, LEFT + d.number);
        if q == Handle::NO_SLOT {
            return Ok(Found::Beside(p, d, looked));
        }
        p = q;
    }
    Err(Refusal::NotSound)
}
