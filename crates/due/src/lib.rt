// Due times (document 01, "Due times", as request 1 changes it): the key of a local time and a drum, and back.
// A reader may rely on `key_of` and `time_of` giving, for every input, what `to_key` and `from_key` of specs/Due
// say; nothing overflows on any numbers. Each field is a type of its own, so that none can be passed for another.
#![tactic(auto)]

ghost use Rattle.std.specs.Prelude.{◌≡◌, ◌<◌, is_ok, pos, ◌+ℤ◌, ◌-ℤ◌, ◌*ℤ◌};
ghost use Rattle.std.specs.Int.{w64};
ghost use Rattle.std.proofs.Common.{SFits};
ghost use Rattle.handle.specs.declared.Refusal.TheVariants as R;
ghost use Rattle.due.specs.Due.{within, GoodTime, moment_of, to_key, from_key};
ghost use Rattle.due.specs.Floor.{floor_div, floor_mod};
ghost use Rattle.due.specs.TimeAnswers.{key_found, time_found};

use handle::{Key, Refusal};
use std::error::Error;
use std::fmt;

// The ranges of the fields, both ends included: document 01's, and request 1's of the drum.
pub const DAY_LOW: i64 = -1_000_000;

pub const DAY_HIGH: i64 = 1_000_000;

pub const SECOND_LOW: i64 = 0;

pub const SECOND_HIGH: i64 = 86_399;

pub const OFFSET_LOW: i64 = -50_400;

pub const OFFSET_HIGH: i64 = 50_400;

pub const DRUM_LOW: i64 = 0;

pub const DRUM_HIGH: i64 = 7;

// Days from 1970-01-01, by the clock at some offset.
#[derive(Clone, Copy, Debug, PartialEq, Eq)]
pub struct Day(pub i64);

// Seconds into such a day.
#[derive(Clone, Copy, Debug, PartialEq, Eq)]
pub struct Second(pub i64);

// How many seconds east of Greenwich a clock runs.
#[derive(Clone, Copy, Debug, PartialEq, Eq)]
pub struct Offset(pub i64);

// Which drum strikes. Of two at one second the lower strikes first.
#[derive(Clone, Copy, Debug, PartialEq, Eq)]
pub struct Drum(pub i64);

// A local time.
#[derive(Clone, Copy, Debug, PartialEq, Eq)]
pub struct Time {
    pub day: Day,
    pub second: Second,
}

// The first and the last local time.
const FIRST: Time = Time {
    day: Day(DAY_LOW),
    second: Second(SECOND_LOW),
};

const LAST: Time = Time {
    day: Day(DAY_HIGH),
    second: Second(SECOND_HIGH),
};

// The one error here: a field, or the day of a key, lies out of its range. It is document 01's refusal 6.
#[derive(Clone, Copy, Debug, PartialEq, Eq)]
pub struct BadTime;

impl fmt::Display for BadTime {
    fn fmt<W: fmt::Write>(&self, f: &mut fmt::Formatter<W>) -> fmt::Result {
        write!(f, "a time out of its range")
    }
}

impl Error for BadTime {}

impl From<BadTime> for Refusal {
    ghost from_gives = { λ _ r. r ≡ R.BadTime };

    fn from(_e: BadTime) -> Refusal {
        Refusal::BadTime
    }
}

// Lets a number pass that lies in its range.
fn within(low: i64, high: i64, z: i64) -> Result<(), BadTime>
    ensures { is_ok result ≡ within low high z }
{
    if (low..=high).contains(&z) {
        Ok(())
    } else {
        Err(BadTime)
    }
}

// How many whole lots of k there are. Below zero it rounds down too: -1 is in the lot before the first.
fn floor(z: i64, k: u32) -> i64
    requires { 0 < k }
    ensures { result ≡ floor_div z k }
{
    z.div_euclid(k as i64)
}

// What is left over of those lots, never negative.
fn rest(z: i64, k: u32) -> i64
    requires { 0 < k }
    ensures { result ≡ pos (floor_mod z k) }
{
    z.rem_euclid(k as i64)
}

// The two ways between a moment and its local clock, which runs ahead of it by the offset. Each stands alone, so that
// an offset taken with the wrong sign shows where it is taken.
fn behind(z: i64, offset: i64) -> i64
    requires { SFits w64 (z -ℤ offset) }
    ensures { result ≡ z -ℤ offset }
{
    z - offset
}

fn ahead(z: i64, offset: i64) -> i64
    requires { SFits w64 (z +ℤ offset) }
    ensures { result ≡ z +ℤ offset }
{
    z + offset
}

// Seconds from 1970-01-01 at offset 0.
fn moment(time: Time, offset: Offset) -> i64
    requires { GoodTime time.day.0 time.second.0 offset.0 }
    ensures { result ≡ moment_of time.day.0 time.second.0 offset.0 }
{
    behind(time.day.0 * 86_400 + time.second.0, offset.0)
}

// The drum takes the last place of a key, of eight: so it decides between two keys of one moment, and no other two.
fn with_drum(moment: i64, drum: i64) -> i64
    requires { (SFits w64 (moment *ℤ pos 8)) × (SFits w64 (moment *ℤ pos 8 +ℤ drum)) }
    ensures { result ≡ moment *ℤ pos 8 +ℤ drum }
{
    moment * 8 + drum
}

// The key of a drum at a local time.
pub fn key_of(time: Time, offset: Offset, drum: Drum) -> Result<Key, BadTime>
    ensures { key_found result ≡ to_key time.day.0 time.second.0 offset.0 drum.0 }
{
    within(DAY_LOW, DAY_HIGH, time.day.0)?;
    within(SECOND_LOW, SECOND_HIGH, time.second.0)?;
    within(OFFSET_LOW, OFFSET_HIGH, offset.0)?;
    within(DRUM_LOW, DRUM_HIGH, drum.0)?;
    let at = moment(time, offset);
    Ok(Key(with_drum(at, drum.0)))
}

// The local time and the drum of a key. The key's moment is held against the first and the last one of the days in range
// before anything is added to it: so the sum cannot overflow, and no test of the day is left for afterwards.
pub fn time_of(key: Key, offset: Offset) -> Result<(Time, Drum), BadTime>
    ensures { time_found result ≡ from_key key.0 offset.0 }
{
    within(OFFSET_LOW, OFFSET_HIGH, offset.0)?;
    let first = moment(FIRST, offset);
    let last = moment(LAST, offset);
    let at = floor(key.0, 8);
    within(first, last, at)?;
    let local = ahead(at, offset.0);
    let day = floor(local, 86_400);
    let second = rest(local, 86_400);
    let drum = rest(key.0, 8);
    let time = Time {
        day: Day(day),
        second: Second(second),
    };
    Ok((time, Drum(drum)))
}
