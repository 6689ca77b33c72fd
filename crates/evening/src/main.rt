// An evening of strikes, for a clockmaker to read: an hour is planned, the sexton has one strike cancelled, the rest are struck.
// What must be refused is tried on the way. Every line tells what a call answered.
#![tactic(auto)]

mod bell;
mod hour;

use arena::words::{FIELDS, HEAD_WORDS};
use output::say_line;
use tower::clock::{DAY, OFFSET};

// What the clock lends: the numbers that six slots take.
const LENT: usize = (HEAD_WORDS + 6 * FIELDS) as usize;

type Store = [u64; LENT];

fn open() {
    say_line!(
        "An evening of strikes: day {DAY} from 1 January 1970, clock {OFFSET} seconds east of Greenwich."
    );
}

fn list(s: &Store) {
    say_line!(
        "The listing: the slots; then key, strokes, slot, generation and rank of each strike."
    );
    listing::print(s);
}

fn main() {
    let mut s = [0u64; LENT];
    open();
    hour::lay_out(&mut s);
    let planned = hour::plan_all(&mut s);
    list(&s);
    bell::cancel(&mut s, planned.half);
    bell::misplace(&mut s, planned.quarter);
    list(&s);
    let mut copy = s;
    bell::lose_link(&mut copy, planned.quarter);
    bell::strike(&mut s);
    bell::retire(&mut s);
    list(&s);
}
