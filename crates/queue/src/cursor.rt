// The chain cursor: a value that stands at an entry, and whose methods hand it back moved, or none at the end.
// From the Rust: advancing along the links of chain/impl_chain_arena_trait.rs.
ghost use Rattle.std.specs.Prelude.{◌≡◌, Ok};
ghost use Rattle.queue.specs.Promised.{FirstPromise, LastPromise, AtPromise, BackPromise, ForwardPromise};
ghost use Rattle.queue.specs.inner.Moving.{moved_to, start_call, step_call};

use arena::store::View;
use arena::{entries, header};
use handle::{Hand, Handle, Refusal};

// Stands at the entry that the handle names.
#[derive(Clone, Copy, Debug, PartialEq, Eq)]
pub struct Cursor {
    pub handle: Handle,
}

// A step along the chain, as the cursor's answer: none at its end.
fn moved_to(p: Option<Handle>) -> Option<Cursor>
    ensures { moved_to (Ok p) ≡ Ok result }
{
    p.map(|h| Cursor { handle: h })
}

// The end of the chain on the side d.
#[tactic(auto, unfolding(crate::specs::inner::Moving::start_call))]
fn start(s: &[u64], d: Hand) -> Result<Option<Cursor>, Refusal>
    ensures { result ≡ start_call s.now d }
{
    let cap = header::test(s)?;
    let p = chain::end(View { words: s, cap }, d)?;
    Ok(moved_to(p))
}

// One step from h on the side d.
#[tactic(auto, using(arena::proofs::SlotReads::live_low), unfolding(crate::specs::inner::Moving::step_call, crate::specs::inner::Moving::step_in))]
fn step(s: &[u64], h: Handle, d: Hand) -> Result<Option<Cursor>, Refusal>
    ensures { result ≡ step_call s.now h d }
{
    let cap = header::test(s)?;
    let store = View { words: s, cap };
    if !entries::live(store, h) {
        return Err(Refusal::InvalidPtr);
    }
    let p = chain::step(store, h.slot.0, d)?;
    Ok(moved_to(p))
}

impl Cursor {
    // Stands at the first entry.
    pub fn first(s: &[u64]) -> Result<Option<Cursor>, Refusal>
        ensures { FirstPromise s.now result }
    {
        start(s, Hand::LEFT)
    }

    // Stands at the last entry.
    pub fn last(s: &[u64]) -> Result<Option<Cursor>, Refusal>
        ensures { LastPromise s.now result }
    {
        start(s, Hand::RIGHT)
    }

    // Stands at the entry that h names.
    pub fn at(s: &[u64], h: Handle) -> Result<Option<Cursor>, Refusal>
        ensures { AtPromise s.now h result }
    {
        let cap = header::test(s)?;
        if !entries::live(View { words: s, cap }, h) {
            return Err(Refusal::InvalidPtr);
        }
        Ok(Some(Cursor { handle: h }))
    }

    // The cursor one entry on.
    #[tactic(auto, using(crate::proofs::Promising::forward_looks))]
    pub fn forward(self, s: &[u64]) -> Result<Option<Cursor>, Refusal>
        ensures { ForwardPromise s.now self.handle result }
    {
        step(s, self.handle, Hand::RIGHT)
    }

    // The cursor one entry back.
    pub fn back(self, s: &[u64]) -> Result<Option<Cursor>, Refusal>
        ensures { BackPromise s.now self.handle result }
    {
        step(s, self.handle, Hand::LEFT)
    }
}
