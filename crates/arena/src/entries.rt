// Entries: whether a handle names a live one, and an entry's key and value.
// From the Rust: the look-ups of arena/impl_arena_trait.rs.
ghost use Rattle.std.specs.Prelude.{◌≡◌, ◌<◌};
ghost use Rattle.arena.specs.inner.Stored.{Becomes};
ghost use Rattle.arena.specs.inner.Entries.{is_live, entry_of, entry_put};

use crate::keys;
use crate::store::{Store, View};
use crate::words::{GENERATION, KEY, RANK, VALUE};
use handle::{Entry, Handle};

// Whether h names a live entry: its slot has a rank and is in h's generation.
#[tactic(auto, unfolding(crate::specs::inner::Entries::is_live))]
pub fn live(s: View<'_>, h: Handle) -> bool
    ensures { result ≡ is_live s.entry.words.now s.entry.cap h }
{
    let i = h.slot.0;
    if s.cap <= i {
        return false;
    }
    if s.field(i, RANK) < 1 {
        return false;
    }
    s.field(i, GENERATION) == h.generation.0
}

// The key and the value of the slot i.
#[tactic(auto, unfolding(crate::specs::inner::Entries::entry_of))]
pub fn read_entry(s: View<'_>, i: u64) -> Entry
    requires i_lt_cap { i < s.cap }
    ensures { result ≡ entry_of s.entry.words.now s.entry.cap i }
{
    let key = keys::signed_key(s.field(i, KEY));
    let value = s.field(i, VALUE);
    Entry { key, value }
}

// The slot i gets a key and a value.
#[tactic(auto, unfolding(crate::specs::inner::Entries::entry_put))]
pub fn put_entry(s: &mut Store<'_>, i: u64, entry: Entry)
    requires i_lt_cap { i < s.old.cap }
    ensures { Becomes s.old s.new (entry_put s.old.words.now s.old.cap i entry.key.0 entry.value) }
{
    s.put(i, KEY, keys::stored_key(entry.key));
    s.put(i, VALUE, entry.value);
}
