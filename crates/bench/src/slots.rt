// Lays out stores of several sizes, takes and frees slots to exhaustion and to retirement, and writes what it saw.
use crate::tell_laid;
use arena::slots::Freed;
use arena::store::Store;
use arena::words::STORE;
use arena::{header, slots};
use handle::{Handle, LIMIT, Refusal, TOP_LIMIT};
use output::{say, say_line};

fn lay(s: &mut [u64], capacity: u64, top: u64) {
    say!(
        "lay out {capacity} slots, top {top}, in {} numbers: ",
        s.len()
    );
    tell_laid(s, capacity, top, "done\n");
}

// Takes a slot from a store whose header passes.
fn take(s: &mut [u64]) -> Result<Handle, Refusal> {
    let cap = header::test(s)?;
    slots::take(&mut Store::new(s, cap))
}

// Takes a slot and says which.
fn take_one(s: &mut [u64]) {
    match take(s) {
        Ok(h) => say_line!("take: slot {} generation {}", h.slot.0, h.generation.0),
        Err(Refusal::NotWithinCapacity) => say_line!("take: none free"),
        Err(_) => say_line!("take: not sound"),
    }
}

// Frees a slot and says what became of it.
fn free_one(s: &mut [u64], i: u64) {
    say!("free {i}");
    let Ok(cap) = header::test(s) else {
        say_line!(": not sound");
        return;
    };
    if cap <= i {
        say_line!(": no such slot");
        return;
    }
    match slots::free(&mut Store::new(s, cap), i) {
        Ok(Freed::Again) => say_line!(": free again"),
        Ok(Freed::GenerationOverflow) => say_line!(": GenerationOverflow, retired"),
        Err(_) => say_line!(": not sound"),
    }
}

// Takes slots until none is free, at most `most`, and tells how many.
fn exhaust(s: &mut [u64], most: u64) -> u64 {
    for taken in 0..most {
        let Ok(_) = take(s) else {
            return taken;
        };
    }
    most
}

fn take_all(s: &mut [u64], most: u64) {
    let n = exhaust(s, most);
    say_line!("took {n} slots");
}

// One slot with two lives.
pub fn two_lives(s: &mut [u64]) {
    lay(s, 1, 2);
    take_one(s);
    take_one(s);
    free_one(s, 0);
    take_one(s);
    free_one(s, 0);
    take_one(s);
}

// The slot freed last is taken first.
pub fn last_first(s: &mut [u64]) {
    lay(s, 3, TOP_LIMIT);
    take_one(s);
    take_one(s);
    take_one(s);
    free_one(s, 1);
    free_one(s, 0);
    take_one(s);
    take_one(s);
    take_one(s);
    free_one(s, 3);
}

fn lay_short(s: &mut [u64]) {
    let end = STORE - 1;
    if end <= s.len() {
        lay(&mut s[..end], LIMIT, 3);
    }
}

// What laying out refuses, and the most slots taken to the last.
pub fn most_slots(s: &mut [u64]) {
    lay(s, 0, 3);
    lay(s, LIMIT + 1, 3);
    lay(s, LIMIT, 0);
    lay(s, LIMIT, TOP_LIMIT + 1);
    lay_short(s);
    take_one(s);
    lay(s, LIMIT, 3);
    take_all(s, 2 * LIMIT);
    take_one(s);
}
