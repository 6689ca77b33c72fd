// How a line is cut into fields, at spaces, and the numbers in them: each function equals its model on the line's bytes.
ghost use Rattle.std.specs.Prelude.{◌≡◌, ℕ, List, Option, drop};
ghost use Rattle.std.specs.Fn.{FnReturnsAt};
ghost use Rattle.input.specs.inner.Fields.{skipped, passed, next_field, InLine, ends_at, field_by, number_field, key_field};

use crate::numbers::{signed, unsigned};
use handle::Key;

// Where a field stands in its line, the end not counted.
#[derive(Clone, Copy, Debug, PartialEq, Eq)]
pub struct Span {
    pub start: usize,
    pub end: usize,
}

// The bytes from `from` on; none behind the line's end. No byte before them is walked over.
fn rest(s: &[u8], from: usize) -> &[u8]
    ensures { result.now ≡ drop from s.now }
{
    if from < s.len() { &s[from..] } else { &[] }
}

// The first place from `from` on that holds no space; the line's end if there is none.
fn skip_spaces(s: &[u8], from: usize) -> usize
    ensures { result ≡ skipped s.now from }
{
    from + rest(s, from).iter().take_while(|b| **b == b' ').count()
}

// The first place from `from` on that holds a space; the line's end if there is none.
fn find_space(s: &[u8], from: usize) -> usize
    ensures { result ≡ passed s.now from }
{
    from + rest(s, from).iter().take_while(|b| **b != b' ').count()
}

// The next field from `from` on.
pub fn next_field(s: &[u8], from: usize) -> Option<Span>
    ensures value { result ≡ next_field s.now from }
    ensures in_line { InLine s.now result }
{
    let start = skip_spaces(s, from);
    if start < s.len() {
        let end = find_space(s, start);
        return Some(Span { start, end });
    }
    None
}

// Whether the line has no field from `from` on.
pub fn ends(s: &[u8], from: usize) -> bool
    ensures { result ≡ ends_at s.now from }
{
    s.len() <= skip_spaces(s, from)
}

// What `read` makes of the next field, and where that field ends. A field that is missing is none.
pub fn field<T: Drop, F: Fn(&[u8]) -> Option<T>>(
    s: &[u8],
    from: usize,
    read: F,
) -> Option<(T, usize)>
    requires { F.IsAlwaysCallable read }
    ensures { (g : List ℕ → Option T) → ((x : List ℕ) (v : Option T) → FnReturnsAt F.Fn read x v → v ≡ g x) → result ≡ field_by g s.now from }
{
    let span = next_field(s, from)?;
    let value = read(&s[span.start..span.end])?;
    Some((value, span.end))
}

// The next field as an unsigned number.
pub fn number_field(s: &[u8], from: usize) -> Option<(u64, usize)>
    ensures { result ≡ number_field s.now from }
{
    field(s, from, unsigned)
}

// The next field as a key.
pub fn key_field(s: &[u8], from: usize) -> Option<(Key, usize)>
    ensures { result ≡ key_field s.now from }
{
    field(s, from, signed)
}
