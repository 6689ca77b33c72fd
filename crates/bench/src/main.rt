// Document 01's "Runs on the bench" that are not proved but run: what laying out refuses, and the whole listing of run A.
// Then its slots, taken and freed to the last. The stored output beside src/ is written from document 01.
#![tactic(auto)]

mod slots;

use arena::words::{FIELDS, STORE};
use handle::{Inserted, Key, LIMIT};
use output::phrases::Refused;
use output::{say, say_line};
use queue::placing;

// Words for one slot more than the limit, so that it is the limit that refuses it.
const WIDE: usize = STORE + FIELDS as usize;

// Lays the store out, and says to the end of the line how that went: `done`, or the refusal.
fn tell_laid(s: &mut [u64], capacity: u64, top: u64, done: &str) {
    match placing::lay_out(s, capacity, top) {
        Ok(()) => say!("{done}"),
        Err(r) => say!("{}", Refused(r)),
    }
}

fn lay(s: &mut [u64], capacity: u64, top: u64) {
    say!("capacity {capacity} top {top}: ");
    tell_laid(s, capacity, top, "laid out\n");
}

// A strike that must be new.
fn strike(s: &mut [u64], k: i64, value: u64) {
    let Ok(Inserted::New(_)) = placing::insert(s, Key(k), value) else {
        say_line!("not new");
        return;
    };
}

fn run(s: &mut [u64]) {
    lay(s, 0, 3);
    lay(s, LIMIT + 1, 3);
    lay(s, 1, 3);
    lay(s, LIMIT, 3);
    lay(s, 8, 0);
    lay(s, 8, 3);
    strike(s, 10, 1);
    strike(s, 20, 2);
    strike(s, 30, 3);
    listing::print(s);
}

fn main() {
    let mut s = [0u64; WIDE];
    let mut large = [7u64; WIDE];
    let mut small = [7u64; 64];
    run(&mut s);
    slots::most_slots(&mut large);
    slots::two_lives(&mut small);
    slots::last_first(&mut small);
}
