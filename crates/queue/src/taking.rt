// Removal by handle.
// From the Rust: remove of ord/simple_ord_arena.rs.
ghost use Rattle.queue.specs.Promised.{RemovePromise};

use arena::header;
use arena::store::Store;
use handle::{Handle, Refusal, Removed};
use remove::removing;

// Takes out the entry that h names.
pub fn remove(s: &mut [u64], h: Handle) -> Result<Removed, Refusal>
    ensures { RemovePromise s.old s.new h result }
{
    let cap = header::test(s)?;
    removing::remove(&mut Store::new(s, cap), h)
}
