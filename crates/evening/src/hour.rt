// The planning: a queue is laid out, and the strikes of the hour from six to seven are planned in it.
use crate::Store;
use arena::words::{FIELDS, STORE};
use handle::{Handle, LIMIT};
use output::{say, say_line};
use tower::clock::OnDrum;
use tower::planning::{lay, plan};

// Seconds into the day.
pub const SIX: i64 = 64_800;

pub const FIRST_QUARTER: i64 = 65_700;

pub const HALF: i64 = 66_600;

const LAST_QUARTER: i64 = 67_500;

const EVENING_BELL: i64 = 67_800;

const SEVEN: i64 = 68_400;

const MIDNIGHT: i64 = 86_400;

// Two of the strikes' handles.
#[derive(Drop)]
pub struct Planned {
    pub quarter: Handle,
    pub half: Handle,
}

// Words for one slot more than the limit, so that it is the limit that refuses it.
const WIDE: usize = STORE + FIELDS as usize;

pub fn lay_out(s: &mut Store) {
    let mut wide = [0u64; WIDE];
    say_line!("A queue is laid out. Before that no strike can be planned.");
    plan(s, OnDrum::hour(SIX), 6);
    lay(s, 0, 9);
    lay(&mut wide, LIMIT + 1, 9);
    lay(s, 7, 9);
    lay(s, 6, 9);
}

pub fn plan_all(s: &mut Store) -> Planned {
    say_line!(
        "The hour's strikes are planned in no order, seven o'clock with six strokes by mistake."
    );
    say_line!("At seven the quarters and the hour are due on the same second, each on its drum.");
    let seven = plan(s, OnDrum::hour(SEVEN), 6);
    let quarter = plan(s, OnDrum::quarter(FIRST_QUARTER), 1);
    plan(s, OnDrum::quarter(LAST_QUARTER), 3);
    plan(s, OnDrum::hour(SIX), 6);
    let half = plan(s, OnDrum::quarter(HALF), 2);
    plan(s, OnDrum::quarter(SEVEN), 4);
    plan(s, OnDrum::bell(EVENING_BELL), 33);
    plan(s, OnDrum::hour(MIDNIGHT), 12);
    plan(s, OnDrum::no_drum(SEVEN), 7);
    let again = plan(s, OnDrum::hour(SEVEN), 7);
    compare(seven, again);
    Planned { quarter, half }
}

// Says whether two handles are the same.
fn compare(before: Handle, now: Handle) {
    say!("  its handle: ");
    if before == now {
        say_line!("the same as before");
    } else {
        say_line!("another than before");
    }
}
