// The sides of the script language, each function equal to its model on the line's bytes.
ghost use Rattle.std.specs.Prelude.{◌≡◌};
ghost use Rattle.script.specs.inner.Sides.{side_read, side_field};

use handle::Side;
use input::fields;
use input::numbers::signed;

// A side: -1, 0 or 1.
pub fn side(s: &[u8]) -> Option<Side>
    ensures { result ≡ side_read s.now }
{
    let k = signed(s)?;
    match k.0 {
        -1 => Some(Side::Less),
        0 => Some(Side::Equal),
        1 => Some(Side::Greater),
        _ => None,
    }
}

// The next field as a side, and where that field ends.
pub fn side_field(s: &[u8], from: usize) -> Option<(Side, usize)>
    ensures { result ≡ side_field s.now from }
{
    fields::field(s, from, side)
}
