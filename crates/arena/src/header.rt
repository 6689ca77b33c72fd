// The header test, exactly as document 01 has it under number 5. Every call on a store but laying out and check begins with it.
ghost use Rattle.std.specs.Prelude.{◌≡◌};
ghost use Rattle.arena.specs.Header.{header_of};
ghost use Rattle.arena.specs.inner.Says.{Says};

use crate::words;
use crate::words::{CAPACITY, FIELDS, HEAD_WORDS};
use handle::{LIMIT, Refusal};

// The capacity of a store whose header passes, else NotSound.
#[tactic(auto, unfolding(crate::specs::Header::header_of, handle::specs::Numbers::limit))]
pub fn test(s: &[u64]) -> Result<u64, Refusal>
    ensures value { result ≡ header_of s.now }
    ensures says { Says s.now result }
{
    if (s.len() as u64) < HEAD_WORDS {
        return Err(Refusal::NotSound);
    }
    let cap = words::head(s, CAPACITY);
    if cap < 1 {
        return Err(Refusal::NotSound);
    }
    if LIMIT < cap {
        return Err(Refusal::NotSound);
    }
    if (s.len() as u64) < HEAD_WORDS + cap * FIELDS {
        return Err(Refusal::NotSound);
    }
    Ok(cap)
}
