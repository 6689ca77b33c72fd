// One line of a script as plain data. What reads well is a call; the rest is Nothing, Bad or Unknown.
// A call with a wrong count of fields and one with a field that is no number of its kind are both Bad.
use crate::sides;
use handle::{Entry, Key, Side};
use input::fields;

// Where an insertion, or a look ahead at one, is asked for.
#[derive(Clone, Copy)]
pub enum Place {
    Normal,
    Empty,
    Manual(u64, Side),
}

#[derive(Clone, Copy)]
pub enum Command {
    Nothing,
    Bad,
    Unknown,
    New(u64, u64),
    Insert(Place, Entry),
    Ahead(Place, Key),
    Remove(u64),
    Get(u64),
    Find(Key),
    Next(u64),
    Prev(u64),
    First,
    Last,
    List,
    Dump,
    Check,
}

// Reads a line of at most 128 bytes, given without its newline. One carriage return at its end is dropped.
pub fn read(s: &[u8]) -> Command {
    match s {
        [bare @ .., b'\r'] => read_bare(bare),
        _ => read_bare(s),
    }
}

// Reads a line without its carriage return.
fn read_bare(s: &[u8]) -> Command {
    let Some(span) = fields::next_field(s, 0) else {
        return Command::Nothing;
    };
    let word = &s[span.start..span.end];
    if word[0] == b'#' {
        return Command::Nothing;
    }
    read_call(word, s, span.end).unwrap_or(Command::Bad)
}

// The call that a word begins, read from what stands behind it: none where that does not fit the word. The words are matched
// exactly, in lower case.
fn read_call(word: &[u8], s: &[u8], at: usize) -> Option<Command> {
    match word {
        b"new" => read_new(s, at),
        b"ins" => insertion(Place::Normal, s, at),
        b"emp" => insertion(Place::Empty, s, at),
        b"man" => {
            let (place, next) = manual(s, at)?;
            insertion(place, s, next)
        }
        b"peek" => look(Place::Normal, s, at),
        b"pemp" => look(Place::Empty, s, at),
        b"pman" => {
            let (place, next) = manual(s, at)?;
            look(place, s, next)
        }
        b"find" => find(s, at),
        b"rem" => by_number(|n| Command::Remove(n), s, at),
        b"get" => by_number(|n| Command::Get(n), s, at),
        b"next" => by_number(|n| Command::Next(n), s, at),
        b"prev" => by_number(|n| Command::Prev(n), s, at),
        b"first" => last(Command::First, s, at),
        b"last" => last(Command::Last, s, at),
        b"list" => last(Command::List, s, at),
        b"dump" => last(Command::Dump, s, at),
        b"check" => last(Command::Check, s, at),
        _ => Some(Command::Unknown),
    }
}

// The command, if no field follows what it was read from.
fn last(c: Command, s: &[u8], end: usize) -> Option<Command> {
    if fields::ends(s, end) { Some(c) } else { None }
}

fn read_new(s: &[u8], at: usize) -> Option<Command> {
    let (capacity, next) = fields::number_field(s, at)?;
    let (top, end) = fields::number_field(s, next)?;
    last(Command::New(capacity, top), s, end)
}

// The number and the side of a Manual place, and where its last field ends.
fn manual(s: &[u8], at: usize) -> Option<(Place, usize)> {
    let (n, next) = fields::number_field(s, at)?;
    let (side, end) = sides::side_field(s, next)?;
    Some((Place::Manual(n, side), end))
}

fn insertion(place: Place, s: &[u8], at: usize) -> Option<Command> {
    let (key, next) = fields::key_field(s, at)?;
    let (value, end) = fields::number_field(s, next)?;
    last(Command::Insert(place, Entry { key, value }), s, end)
}

fn look(place: Place, s: &[u8], at: usize) -> Option<Command> {
    let (key, end) = fields::key_field(s, at)?;
    last(Command::Ahead(place, key), s, end)
}

fn find(s: &[u8], at: usize) -> Option<Command> {
    let (key, end) = fields::key_field(s, at)?;
    last(Command::Find(key), s, end)
}

// A command of the one number that stands behind its word.
fn by_number<F: Fn(u64) -> Command>(command: F, s: &[u8], at: usize) -> Option<Command>
    requires { F.IsAlwaysCallable command }
{
    let (n, end) = fields::number_field(s, at)?;
    last(command(n), s, end)
}
