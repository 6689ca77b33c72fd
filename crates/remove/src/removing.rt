// Removal by handle: the entry leaves the tree and the chain, its slot is freed, and its key and value are the answer.
// A refusal for a dead handle changes nothing; NotSound is answered on no sound store. The store keeps its loan and its capacity.
// From the Rust: remove of ord/simple_ord_arena.rs over internal_remove of ord/remove.rs.
ghost use Rattle.std.specs.Prelude.{◌≡◌, ◌<◌};
ghost use Rattle.arena.specs.inner.Stored.{SameLoan};
ghost use Rattle.remove.specs.inner.Remove.{let_go, remove_live, remove_by};

use crate::taking;
use arena::slots::Freed;
use arena::store::Store;
use arena::{entries, slots};
use handle::{Handle, Refusal, Removed};

// The slot i leaves the chain and is freed.
#[tactic(auto, unfolding(crate::specs::inner::Remove::let_go))]
fn let_go(s: &mut Store<'_>, i: u64) -> Result<Freed, Refusal>
    requires i_lt_cap { i < s.old.cap }
    ensures keeps { SameLoan s.old s.new }
    ensures result_after { (s.new.words.now, result) ≡ let_go s.old.words.now s.old.cap i }
{
    chain::unlink(s, i);
    slots::free(s, i)
}

// Removes the live entry in the slot i. It is read before it is moved.
#[tactic(auto, unfolding(crate::specs::inner::Remove::remove_live))]
fn remove_live(s: &mut Store<'_>, i: u64) -> Result<Removed, Refusal>
    requires i_lt_cap { i < s.old.cap }
    ensures keeps { SameLoan s.old s.new }
    ensures result_after { (s.new.words.now, result) ≡ remove_live s.old.words.now s.old.cap i }
{
    let entry = entries::read_entry(s.view(), i);
    taking::take_out(s, i)?;
    match let_go(s, i)? {
        Freed::Again => Ok(Removed::Entry(entry)),
        Freed::GenerationOverflow => Ok(Removed::GenerationOverflow(entry)),
    }
}

// Removes the entry that h names.
#[tactic(auto, using(arena::proofs::SlotReads::live_low), unfolding(crate::specs::inner::Remove::remove_by))]
pub fn remove(s: &mut Store<'_>, h: Handle) -> Result<Removed, Refusal>
    ensures keeps { SameLoan s.old s.new }
    ensures result_after { (s.new.words.now, result) ≡ remove_by s.old.words.now s.old.cap h }
{
    if entries::live(s.view(), h) {
        return remove_live(s, h.slot.0);
    }
    Err(Refusal::InvalidPtr)
}
