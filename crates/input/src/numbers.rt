// Numbers from bytes, each function equal to its model: no byte is read as something else.
ghost use Rattle.std.specs.Prelude.{◌≡◌, ◌<◌, ◌≤◌, Some, MatchOption};
ghost use Rattle.input.specs.inner.Numbers.{digit_of, unsigned_of, below_of, above_of, signed_of};

use handle::Key;

// One or more digits, at most 2^64 - 1.
pub fn unsigned(s: &[u8]) -> Option<u64>
    ensures { result ≡ unsigned_of s.now }
{
    if s.is_empty() {
        return None;
    }
    let mut v: u64 = 0;
    for &b in s {
        let d = digit(b)?;
        let tens = v.checked_mul(10)?;
        v = tens.checked_add(d)?;
    }
    Some(v)
}

// What a digit counts.
fn digit(b: u8) -> Option<u64>
    ensures { MatchOption result (9 < digit_of b) (λ d. (d ≡ digit_of b) × (d ≤ 9)) }
{
    if b.is_ascii_digit() {
        Some((b - b'0') as u64)
    } else {
        None
    }
}

// Digits, or a minus and digits, from -2^63 to 2^63 - 1.
pub fn signed(s: &[u8]) -> Option<Key>
    ensures { result ≡ signed_of s.now }
{
    match s {
        [b'-', digits @ ..] => below(unsigned(digits)?),
        _ => above(unsigned(s)?),
    }
}

// The key that is the number's negative.
fn below(v: u64) -> Option<Key>
    ensures { result ≡ below_of (Some v) }
{
    let k = 0i64.checked_sub_unsigned(v)?;
    Some(Key(k))
}

// The key that is the number.
fn above(v: u64) -> Option<Key>
    ensures { result ≡ above_of (Some v) }
{
    let k = 0i64.checked_add_unsigned(v)?;
    Some(Key(k))
}
