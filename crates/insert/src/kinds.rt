// The kinds of insertion: where a key goes by Normal, Empty or Manual, or why it doesn't. Nothing is written here.
// A caller relies on the equality with specs/inner/Kinds.antt, and that a slot and a side in the answer can be used (PreparedIn).
// From the Rust: check_ord_insert_kind and the start of insert_inx_manual_unwrap (ord/insert.rs). Manual looks at the key here.
ghost use Rattle.std.specs.Prelude.{◌≡◌, ◌<◌};
ghost use Rattle.insert.specs.inner.Kinds.{PreparedIn, prepared_normal, prepared_empty, lies_on, prepared_equal, place_beside, prepared_beside, prepared_manual};

use arena::entries;
use arena::store::View;
use arena::words::{KEY, LEFT, PREV, ROOT};
use find::Found;
use handle::{Hand, Handle, Refusal, Side};

// What an insertion is going to do.
#[derive(Clone, Copy)]
pub enum Prepared {
    // the first entry of an empty queue
    Alone,
    // a new entry as the child of this slot on this side, where it has none
    Beside(u64, Hand),
    // another value in this slot
    Replace(u64),
}

// Normal: the search's answer for the stored key k.
#[tactic(auto, unfolding(crate::specs::inner::Kinds::prepared_normal))]
pub fn prepare_normal(s: View<'_>, k: u64) -> Result<Prepared, Refusal>
    ensures value { result ≡ prepared_normal s.entry.words.now s.entry.cap k }
    ensures prepared_in { PreparedIn s.entry.cap result }
{
    match find::seek(s, k)? {
        Found::Equal(p, _) => Ok(Prepared::Replace(p)),
        Found::Beside(p, d, _) => Ok(Prepared::Beside(p, d)),
        Found::Empty => Ok(Prepared::Alone),
    }
}

// "Empty: only into an empty queue."
#[tactic(auto, unfolding(crate::specs::inner::Kinds::prepared_empty))]
pub fn prepare_empty(s: View<'_>) -> Result<Prepared, Refusal>
    ensures value { result ≡ prepared_empty s.entry.words.now }
    ensures prepared_in { PreparedIn s.entry.cap result }
{
    if s.head(ROOT) == Handle::NO_SLOT {
        return Ok(Prepared::Alone);
    }
    Err(Refusal::FailedOrdRequirement)
}

// Whether a lies strictly on the side d of b.
#[tactic(auto, unfolding(crate::specs::inner::Kinds::lies_on))]
fn lies(d: Hand, a: u64, b: u64) -> bool
    ensures { result ≡ lies_on d a b }
{
    if d.number == 0 {
        return a < b;
    }
    b < a
}

// Manual, Equal: the key must be the target's.
#[tactic(auto, unfolding(crate::specs::inner::Kinds::prepared_equal))]
fn prepare_equal(s: View<'_>, i: u64, k: u64) -> Result<Prepared, Refusal>
    requires i_lt_cap { i < s.cap }
    ensures value { result ≡ prepared_equal s.entry.words.now s.entry.cap i k }
    ensures prepared_in { PreparedIn s.entry.cap result }
{
    if s.field(i, KEY) == k {
        return Ok(Prepared::Replace(i));
    }
    Err(Refusal::FailedOrdRequirement)
}

// "Less: if the target has a left child, the new entry becomes the right child of its prev, else the target's left child. Greater
// mirrors this." The target's neighbour on the side d is q.
#[tactic(auto, unfolding(crate::specs::inner::Kinds::place_beside))]
fn place_beside(s: View<'_>, i: u64, d: Hand, q: u64) -> Result<Prepared, Refusal>
    requires i_lt_cap { i < s.cap }
    ensures value { result ≡ place_beside s.entry.words.now s.entry.cap i d q }
    ensures prepared_in { PreparedIn s.entry.cap result }
{
    if s.field(i, LEFT + d.number) == Handle::NO_SLOT {
        return Ok(Prepared::Beside(i, d));
    }
    if s.cap <= q {
        return Err(Refusal::NotSound);
    }
    Ok(Prepared::Beside(q, d.other()))
}

// Manual, Less or Greater: "the key must lie strictly between the target's and its chain neighbour's on that side (if there is one)".
#[tactic(auto, unfolding(crate::specs::inner::Kinds::prepared_beside, crate::specs::inner::Kinds::beside_next))]
fn prepare_beside(s: View<'_>, i: u64, d: Hand, k: u64) -> Result<Prepared, Refusal>
    requires i_lt_cap { i < s.cap }
    ensures value { result ≡ prepared_beside s.entry.words.now s.entry.cap i d k }
    ensures prepared_in { PreparedIn s.entry.cap result }
{
    let key = s.field(i, KEY);
    if !lies(d, k, key) {
        return Err(Refusal::FailedOrdRequirement);
    }
    let q = s.field(i, PREV + d.number);
    if q == Handle::NO_SLOT {
        return place_beside(s, i, d, q);
    }
    if s.cap <= q {
        return Err(Refusal::NotSound);
    }
    let far = s.field(q, KEY);
    if !lies(d.other(), k, far) {
        return Err(Refusal::FailedOrdRequirement);
    }
    place_beside(s, i, d, q)
}

// Manual: a live handle and a side of it.
#[tactic(auto, using(arena::proofs::SlotReads::live_low), unfolding(crate::specs::inner::Kinds::prepared_manual))]
pub fn prepare_manual(s: View<'_>, h: Handle, side: Side, k: u64) -> Result<Prepared, Refusal>
    ensures value { result ≡ prepared_manual s.entry.words.now s.entry.cap h side k }
    ensures prepared_in { PreparedIn s.entry.cap result }
{
    if !entries::live(s, h) {
        return Err(Refusal::FailedOrdRequirement);
    }
    let i = h.slot.0;
    match side {
        Side::Less => prepare_beside(s, i, Hand::LEFT, k),
        Side::Equal => prepare_equal(s, i, k),
        Side::Greater => prepare_beside(s, i, Hand::RIGHT, k),
    }
}
