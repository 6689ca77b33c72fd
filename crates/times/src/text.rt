// Questions as text. Nothing here is promised beyond that every call is safe and ends: the program's tests
// compare what it makes of its input with another implementation.
use due::{Day, Drum, Offset, Second, Time};
use handle::Key;
use input::fields::key_field;

#[derive(Clone, Copy)]
pub enum Asked {
    Key(Time, Offset, Drum),
    Time(Key, Offset),
}

pub fn is_remark(s: &[u8]) -> bool {
    s.is_empty() || s[0] == b'#'
}

// A space and a number at a place, read as a key, which any signed number is, and where it ends. A second space makes it bad.
fn field_at(s: &[u8], at: usize) -> Option<(Key, usize)> {
    if at < s.len() && s[at] == b' ' {
        let from = at + 1;
        if from < s.len() && s[from] == b' ' {
            return None;
        }
        return key_field(s, from);
    }
    None
}

// The question, if the line ends where it does.
fn whole(asked: Asked, s: &[u8], end: usize) -> Option<Asked> {
    if end == s.len() { Some(asked) } else { None }
}

fn key_asked(s: &[u8]) -> Option<Asked> {
    let (day, a) = field_at(s, 3)?;
    let (second, b) = field_at(s, a)?;
    let (offset, c) = field_at(s, b)?;
    let (drum, end) = field_at(s, c)?;
    let time = Time {
        day: Day(day.0),
        second: Second(second.0),
    };
    whole(Asked::Key(time, Offset(offset.0), Drum(drum.0)), s, end)
}

fn time_asked(s: &[u8]) -> Option<Asked> {
    let (key, a) = field_at(s, 4)?;
    let (offset, end) = field_at(s, a)?;
    whole(Asked::Time(key, Offset(offset.0)), s, end)
}

// What a line asks. No space may stand in front, at the end, or twice in a row.
pub fn question(s: &[u8]) -> Option<Asked> {
    match s {
        [b'k', b'e', b'y', ..] => key_asked(s),
        [b't', b'i', b'm', b'e', ..] => time_asked(s),
        _ => None,
    }
}
