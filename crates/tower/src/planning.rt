// Laying out and planning: each call is told in one line, what was asked for and what the queue answered.
use crate::clock::{DAY, OFFSET, OnDrum, Strokes};
use due::{BadTime, Day, Offset, Time};
use handle::{Handle, Inserted, Key, Refusal, Side};
use output::phrases::{Counted, Refused};
use output::{say, say_line};
use queue::placing;
use std::fmt;
use std::fmt::Display;

// How a strike is placed: by its time, as the only one, or just before another.
#[derive(Clone, Copy)]
pub enum Way {
    ByTime,
    Alone,
    Before(Handle),
}

impl Way {
    fn place(self, s: &mut [u64], key: Key, strokes: u64) -> Result<Inserted, Refusal> {
        match self {
            Way::ByTime => placing::insert(s, key, strokes),
            Way::Alone => placing::insert_empty(s, key, strokes),
            Way::Before(h) => placing::insert_manual(s, h, Side::Less, key, strokes),
        }
    }
}

// What is said of the way behind when and what is planned: nothing, where it is the usual one.
impl Display for Way {
    fn fmt<W: fmt::Write>(&self, f: &mut fmt::Formatter<W>) -> fmt::Result {
        match self {
            Way::ByTime => Ok(()),
            Way::Alone => write!(f, ", as the only strike"),
            Way::Before(_) => write!(f, ", just before a given one"),
        }
    }
}

// Lays the store out.
pub fn lay(s: &mut [u64], slots: u64, top: u64) {
    let asked = Counted(slots, "slot");
    let lives = Counted(top, "generation");
    let lent = Counted(s.len() as u64, "number");
    say!("  lay out {asked} of {lives} in {lent}: ");
    match placing::lay_out(s, slots, top) {
        Ok(()) => say_line!("done"),
        Err(r) => say!("{}", Refused(r)),
    }
}

// Plans a strike by its time.
pub fn plan(s: &mut [u64], due: OnDrum, count: u64) -> Handle {
    plan_so(s, Way::ByTime, due, count)
}

// Plans a strike. Answers its handle, or one that names no strike where the queue refused.
pub fn plan_so(s: &mut [u64], way: Way, due: OnDrum, count: u64) -> Handle {
    say!("  plan {}{way}: ", Strokes { due, count });
    match placed(s, way, due, count) {
        Ok(Inserted::New(h)) => {
            say_line!("planned");
            h
        }
        Ok(Inserted::Replacing(h, old)) => {
            say_line!("planned already, replaces {}", Counted(old, "stroke"));
            h
        }
        Err(r) => {
            say!("{}", Refused(r));
            Handle::none()
        }
    }
}

fn placed(s: &mut [u64], way: Way, due: OnDrum, count: u64) -> Result<Inserted, Refusal> {
    let key = key_of(due)?;
    way.place(s, key, count)
}

// The key of a time of this evening's day.
fn key_of(due: OnDrum) -> Result<Key, BadTime> {
    let time = Time {
        day: Day(DAY),
        second: due.second,
    };
    due::key_of(time, Offset(OFFSET), due.drum)
}
