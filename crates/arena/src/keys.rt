// Keys in their stored form: the signed key and 2^63, so that order on the stored numbers is order on keys.
ghost use Rattle.std.specs.Prelude.{◌≡◌};
ghost use Rattle.arena.specs.Keys.{stored, signed};

use handle::Key;

// The number under which a key stands in the store.
pub fn stored_key(k: Key) -> u64
    ensures { result ≡ stored k.0 }
{
    let z = k.0;
    if z < 0 {
        return 9223372036854775807 - ((!z) as u64);
    }
    (z as u64) + 9223372036854775808
}

// The key that stands in the store as w.
pub fn signed_key(w: u64) -> Key
    ensures { result.0 ≡ signed w }
{
    if w < 9223372036854775808 {
        return Key(!((9223372036854775807 - w) as i64));
    }
    Key((w - 9223372036854775808) as i64)
}
