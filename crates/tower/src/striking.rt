// Taking strikes out, by the sexton or by the clock, and looking at them: each call is told in one line.
use crate::clock::Strike;
use handle::{Handle, LIMIT, Refusal, Removed};
use output::phrases::Refused;
use output::{say, say_line};
use queue::cursor::Cursor;
use queue::{looking, taking};

// Takes out the strike that h names.
pub fn take(s: &mut [u64], h: Handle) {
    match taking::remove(s, h) {
        Ok(Removed::Entry(e)) => say!("{}", Strike(e)),
        Ok(Removed::GenerationOverflow(e)) => {
            say!("{}", Strike(e));
            say_line!("  GenerationOverflow: its slot is retired for good");
        }
        Err(r) => say!("{}", Refused(r)),
    }
}

// Reads the strike that h names.
pub fn read(s: &[u64], h: Handle) {
    match looking::read(s, h) {
        Ok(e) => say!("{}", Strike(e)),
        Err(r) => say!("{}", Refused(r)),
    }
}

// Where a cursor has come to.
pub fn reached(s: &[u64], moved: Result<Option<Cursor>, Refusal>) {
    match moved {
        Ok(Some(cursor)) => read(s, cursor.handle),
        Ok(None) => say_line!("no strike is left"),
        Err(r) => say!("{}", Refused(r)),
    }
}

// Steps through the queue by the cursor, to its end. No queue has more strikes than the limit.
pub fn step_through(s: &[u64]) {
    let mut moved = Cursor::first(s);
    for _ in 0..LIMIT {
        say!("  ");
        reached(s, moved);
        let Ok(Some(cursor)) = moved else {
            break;
        };
        moved = cursor.forward(s);
    }
}

// Strikes the first strike again and again, till none is left.
pub fn strike_all(s: &mut [u64]) {
    for _ in 0..LIMIT {
        let Ok(Some(cursor)) = Cursor::first(s) else {
            break;
        };
        say!("  strike ");
        take(s, cursor.handle);
    }
}

// Says which strike is the first now.
pub fn tell_first(s: &[u64]) {
    say!("  the next strike: ");
    reached(s, Cursor::first(s));
}
