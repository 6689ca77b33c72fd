// Search, reading and the check: they look and change nothing.
// From the Rust: find_similar_key of ord/find.rs, and reading by pointer.
ghost use Rattle.std.specs.Prelude.{◌≡◌};
ghost use Rattle.queue.specs.Promised.{CheckPromise, SearchPromise, ReadPromise};
ghost use Rattle.queue.specs.inner.Looking.{searched};

use arena::store::View;
use arena::{header, keys, slots};
use find::Found;
use handle::{Entry, Handle, Key, Refusal, Side};
use remove::reading;

// What a search answers: the entry with an equal key, or the last one looked at and the side of it on which the key lies. The
// number is how many entries were looked at.
#[derive(Clone, Copy, Debug, PartialEq, Eq)]
pub enum Searched {
    Equal(Handle, u64),
    Beside(Handle, Side, u64),
    Empty(u64),
}

#[tactic(auto, unfolding(crate::specs::inner::Looking::searched, crate::specs::inner::Looking::handle_at))]
fn search_in(s: View<'_>, k: u64) -> Result<Searched, Refusal>
    ensures { result ≡ searched s.entry.words.now s.entry.cap k }
{
    match find::seek(s, k)? {
        Found::Equal(p, n) => Ok(Searched::Equal(slots::handle_at(s, p), n)),
        Found::Beside(p, d, n) => {
            let h = slots::handle_at(s, p);
            if d.number == 0 {
                return Ok(Searched::Beside(h, Side::Less, n));
            }
            Ok(Searched::Beside(h, Side::Greater, n))
        }
        Found::Empty => Ok(Searched::Empty(0)),
    }
}

pub fn search(s: &[u64], key: Key) -> Result<Searched, Refusal>
    ensures { SearchPromise s.now key.0 result }
{
    let cap = header::test(s)?;
    search_in(View { words: s, cap }, keys::stored_key(key))
}

// Whether the store is sound.
pub fn check(s: &[u64]) -> bool
    ensures { CheckPromise s.now result }
{
    sound::sound(s)
}

// The key and the value of the entry that h names.
pub fn read(s: &[u64], h: Handle) -> Result<Entry, Refusal>
    ensures { ReadPromise s.now h result }
{
    let cap = header::test(s)?;
    reading::read(View { words: s, cap }, h)
}
