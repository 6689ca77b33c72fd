// The queue in a program of one's own, to be copied: `handle` has the kinds and the answers, `queue` the calls.
#![tactic(auto)]

use handle::{Inserted, Key, Refusal, Removed};
use queue::cursor::Cursor;
use queue::looking::Searched;
use queue::{looking, placing, taking};

// What the system does not take is lost, and the next is tried: nothing else can be done about it here.
fn say(n: u64, text: &[u8]) {
    io::print_decimal(1, n);
    io::write_all(1, text);
}

fn laid_out(answer: Result<(), Refusal>) {
    match answer {
        Ok(()) => say(8, b" slots are laid out\n"),
        Err(r) => say(r.number(), b" is why no queue was laid out\n"),
    }
}

fn planned(answer: Result<Inserted, Refusal>) {
    match answer {
        Ok(Inserted::New(h)) => say(h.slot.0, b" is the slot of a new strike\n"),
        Ok(Inserted::Replacing(_, old)) => say(old, b" strokes are replaced\n"),
        Err(r) => say(r.number(), b" is why no strike was planned\n"),
    }
}

fn reached(moved: Result<Option<Cursor>, Refusal>) {
    match moved {
        Ok(Some(c)) => say(c.handle.slot.0, b" is the slot of the strike reached\n"),
        Ok(None) => say(0, b" strikes are left\n"),
        Err(r) => say(r.number(), b" is why no step was made\n"),
    }
}

fn cancelled(answer: Result<Removed, Refusal>) {
    match answer {
        Ok(Removed::Entry(e)) => say(e.value, b" strokes are cancelled\n"),
        Ok(Removed::GenerationOverflow(e)) => say(e.value, b" strokes, and the slot is retired\n"),
        Err(r) => say(r.number(), b" is why nothing was cancelled\n"),
    }
}

fn main() {
    let mut s = [0u64; 96]; // as many as numbers_needed(8) tells
    laid_out(placing::lay_out(&mut s, 8, 9));
    let half = placing::insert(&mut s, Key(66_600), 2);
    planned(half);
    planned(placing::insert(&mut s, Key(64_800), 6));
    planned(placing::insert(&mut s, Key(64_800), 7)); // the same key: the value is replaced
    let Ok(Inserted::New(h)) = half else { return };
    reached(Cursor::first(&s));
    reached(Cursor { handle: h }.forward(&s));
    cancelled(taking::remove(&mut s, h));
    match looking::search(&s, Key(66_600)) {
        Ok(Searched::Equal(h, _)) => say(h.slot.0, b" is the slot of the strike found\n"),
        Ok(Searched::Beside(h, _, _)) => say(h.slot.0, b" is the slot beside; it is absent\n"),
        Ok(Searched::Empty(n)) => say(n, b" strikes are planned\n"),
        Err(r) => say(r.number(), b" is why nothing was searched\n"),
    }
}
