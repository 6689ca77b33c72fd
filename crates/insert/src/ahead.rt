// The look-ahead: what the same insertion would get next, with nothing changed.
// A caller relies on the equality with specs/inner/Ahead.antt; the store is a View, which nothing can write.
// From the Rust: SimpleOrdArenaInsertEntry::ptr and OrdEntryKind (ord/insert.rs).
ghost use Rattle.std.specs.Prelude.{◌≡◌};
ghost use Rattle.insert.specs.inner.Kinds.{PreparedIn};
ghost use Rattle.insert.specs.inner.Ahead.{next_new, looked_ahead, ahead_normal, ahead_empty, ahead_manual};

use crate::kinds;
use crate::kinds::Prepared;
use arena::store::View;
use arena::{keys, slots};
use handle::{Ahead, Handle, Key, Refusal, Side};

// A new entry: the slot that would be taken.
#[tactic(auto, unfolding(crate::specs::inner::Ahead::next_new))]
fn next_new(s: View<'_>) -> Result<Ahead, Refusal>
    ensures { result ≡ next_new s.entry.words.now s.entry.cap }
{
    let h = slots::peek(s)?;
    Ok(Ahead::New(h))
}

// What `place::apply` would answer.
pub fn look_ahead(s: View<'_>, p: Result<Prepared, Refusal>) -> Result<Ahead, Refusal>
    requires prepared_in { PreparedIn s.cap p }
    ensures { result ≡ looked_ahead s.entry.words.now s.entry.cap p }
{
    match p? {
        Prepared::Alone | Prepared::Beside(_, _) => next_new(s),
        Prepared::Replace(i) => Ok(Ahead::Replacing(slots::handle_at(s, i))),
    }
}

#[tactic(auto, unfolding(crate::specs::inner::Ahead::ahead_normal))]
pub fn ahead_normal(s: View<'_>, key: Key) -> Result<Ahead, Refusal>
    ensures { result ≡ ahead_normal s.entry.words.now s.entry.cap key.0 }
{
    let k = keys::stored_key(key);
    let p = kinds::prepare_normal(s, k);
    look_ahead(s, p)
}

#[tactic(auto, unfolding(crate::specs::inner::Ahead::ahead_empty))]
pub fn ahead_empty(s: View<'_>) -> Result<Ahead, Refusal>
    ensures { result ≡ ahead_empty s.entry.words.now s.entry.cap }
{
    let p = kinds::prepare_empty(s);
    look_ahead(s, p)
}

#[tactic(auto, unfolding(crate::specs::inner::Ahead::ahead_manual))]
pub fn ahead_manual(s: View<'_>, h: Handle, side: Side, key: Key) -> Result<Ahead, Refusal>
    ensures { result ≡ ahead_manual s.entry.words.now s.entry.cap h side key.0 }
{
    let k = keys::stored_key(key);
    let p = kinds::prepare_manual(s, h, side, k);
    look_ahead(s, p)
}
