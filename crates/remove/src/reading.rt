// Reading by handle: key and value of a live entry. No store is changed.
// From the Rust: get of ord/simple_ord_arena.rs.
ghost use Rattle.std.specs.Prelude.{◌≡◌};
ghost use Rattle.remove.specs.inner.Remove.{read_by};

use arena::entries;
use arena::store::View;
use handle::{Entry, Handle, Refusal};

// The entry that h names.
#[tactic(auto, using(arena::proofs::SlotReads::live_low), unfolding(crate::specs::inner::Remove::read_by))]
pub fn read(s: View<'_>, h: Handle) -> Result<Entry, Refusal>
    ensures { result ≡ read_by s.entry.words.now s.entry.cap h }
{
    if entries::live(s, h) {
        return Ok(entries::read_entry(s, h.slot.0));
    }
    Err(Refusal::InvalidPtr)
}
