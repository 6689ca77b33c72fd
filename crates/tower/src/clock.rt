// The tower's clock: the day of this evening, its offset and its drums, and times and strikes as a clockmaker writes them.
use due::{DRUM_HIGH, Drum, Offset, Second};
use handle::{Entry, Refusal};
use output::phrases::{Counted, Refused, Signed};
use std::fmt;
use std::fmt::{Display, Formatter};

// Days from 1 January 1970, and seconds east of Greenwich.
pub const DAY: i64 = 20_772;

pub const OFFSET: i64 = 3_600;

// The drums. Of two that are due on one second the lower strikes first: the quarters, then the hour.
const QUARTER_DRUM: i64 = 0;

const HOUR_DRUM: i64 = 1;

const BELL_DRUM: i64 = 2;

// When in the day a strike is due, and on which drum.
#[derive(Clone, Copy)]
pub struct OnDrum {
    pub second: Second,
    pub drum: Drum,
}

impl OnDrum {
    pub fn quarter(second: i64) -> OnDrum {
        OnDrum::new(second, QUARTER_DRUM)
    }

    pub fn hour(second: i64) -> OnDrum {
        OnDrum::new(second, HOUR_DRUM)
    }

    pub fn bell(second: i64) -> OnDrum {
        OnDrum::new(second, BELL_DRUM)
    }

    // A drum that no tower has.
    pub fn no_drum(second: i64) -> OnDrum {
        OnDrum::new(second, DRUM_HIGH + 1)
    }

    fn new(second: i64, drum: i64) -> OnDrum {
        OnDrum {
            second: Second(second),
            drum: Drum(drum),
        }
    }
}

// So many strokes: `HH:MM:SS, 4 strokes on the quarter drum`.
#[derive(Drop)]
pub struct Strokes {
    pub due: OnDrum,
    pub count: u64,
}

impl Display for Strokes {
    fn fmt<W: fmt::Write>(&self, f: &mut Formatter<W>) -> fmt::Result {
        let time = TimeOfDay(self.due.second);
        let drum = DrumName(self.due.drum);
        write!(f, "{time}, {} on {drum}", Counted(self.count, "stroke"))
    }
}

// A strike to the end of its line: when it is due, and on which drum, read back from its key, and its strokes.
#[derive(Drop)]
pub struct Strike(pub Entry);

impl Display for Strike {
    fn fmt<W: fmt::Write>(&self, f: &mut Formatter<W>) -> fmt::Result {
        let Ok((time, drum)) = due::time_of(self.0.key, Offset(OFFSET)) else {
            return write!(f, "{}", Refused(Refusal::BadTime));
        };
        let due = OnDrum {
            second: time.second,
            drum,
        };
        let strokes = Strokes {
            due,
            count: self.0.value,
        };
        if time.day.0 == DAY {
            return writeln!(f, "{strokes}");
        }
        write!(f, "{strokes}, on another day")?;
        writeln!(f)
    }
}

// So many seconds into a day, as HH:MM:SS.
#[derive(Drop)]
struct TimeOfDay(Second);

impl Display for TimeOfDay {
    fn fmt<W: fmt::Write>(&self, f: &mut Formatter<W>) -> fmt::Result {
        let n = self.0.0.unsigned_abs();
        let hour = TwoDigits(n / 3_600);
        write!(f, "{hour}:{}:{}", TwoDigits(n / 60 % 60), TwoDigits(n % 60))
    }
}

#[derive(Drop)]
struct TwoDigits(u64);

impl Display for TwoDigits {
    fn fmt<W: fmt::Write>(&self, f: &mut Formatter<W>) -> fmt::Result {
        if self.0 < 10 {
            write!(f, "0")?;
        }
        write!(f, "{}", self.0)
    }
}

#[derive(Drop)]
struct DrumName(Drum);

impl Display for DrumName {
    fn fmt<W: fmt::Write>(&self, f: &mut Formatter<W>) -> fmt::Result {
        match self.0.0 {
            QUARTER_DRUM => write!(f, "the quarter drum"),
            HOUR_DRUM => write!(f, "the hour drum"),
            BELL_DRUM => write!(f, "the bell drum"),
            other => write!(f, "drum {}", Signed(other)),
        }
    }
}
