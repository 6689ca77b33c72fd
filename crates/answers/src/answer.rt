// What a command is answered with where the queue does not refuse it, as plain data, and how it is written: `{}` gives the whole
// line, its end too.
use handle::{Entry, Side};
use std::fmt;
use std::fmt::Display;

// Numbers are those of insertions, but for an old value and a count, which come last.
#[derive(Drop)]
pub enum Answer {
    Nothing,
    BadLine,
    Unknown,
    Done,
    Full,
    New(u64),
    Replaced(u64, u64),
    WouldBeNew,
    WouldReplace(u64),
    Removed(u64, Entry),
    RemovedForGood(u64, Entry),
    Got(Entry),
    Found(Side, u64, u64),
    Empty,
    At(u64),
    End,
    Sound,
    Unsound,
}

impl Display for Answer {
    fn fmt<W: fmt::Write>(&self, f: &mut fmt::Formatter<W>) -> fmt::Result {
        match self {
            Answer::Nothing => Ok(()),
            Answer::BadLine => writeln!(f, "bad line"),
            Answer::Unknown => writeln!(f, "unknown"),
            Answer::Done => writeln!(f, "ok"),
            Answer::Full => writeln!(f, "full"),
            Answer::New(n) => writeln!(f, "new {n}"),
            Answer::Replaced(n, old) => writeln!(f, "rep {n} {old}"),
            Answer::WouldBeNew => writeln!(f, "new"),
            Answer::WouldReplace(n) => writeln!(f, "rep {n}"),
            Answer::Removed(n, e) => writeln!(f, "rem {n} {e}"),
            Answer::RemovedForGood(n, e) => writeln!(f, "rem {n} {e} overflow"),
            Answer::Got(e) => writeln!(f, "got {e}"),
            Answer::Found(Side::Less, n, count) => writeln!(f, "less {n} {count}"),
            Answer::Found(Side::Equal, n, count) => writeln!(f, "eq {n} {count}"),
            Answer::Found(Side::Greater, n, count) => writeln!(f, "greater {n} {count}"),
            Answer::Empty => writeln!(f, "empty 0"),
            Answer::At(n) => writeln!(f, "at {n}"),
            Answer::End => writeln!(f, "end"),
            Answer::Sound => writeln!(f, "sound"),
            Answer::Unsound => writeln!(f, "unsound"),
        }
    }
}
