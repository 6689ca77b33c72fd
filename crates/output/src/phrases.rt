// How the programs put a count, a number with its sign, and a refusal into words. Each piece is a write of its own where nothing
// collects them.
use handle::Refusal;
use std::fmt;
use std::fmt::Display;

// So many things of a kind: `1 stroke`, `2 strokes`.
#[derive(Drop)]
pub struct Counted<'a>(pub u64, pub &'a str);

impl<'a> Display for Counted<'a> {
    fn fmt<W: fmt::Write>(&self, f: &mut fmt::Formatter<W>) -> fmt::Result {
        write!(f, "{} {}", self.0, self.1)?;
        if self.0 == 1 { Ok(()) } else { write!(f, "s") }
    }
}

// A number with its sign.
#[derive(Drop)]
pub struct Signed(pub i64);

impl Display for Signed {
    fn fmt<W: fmt::Write>(&self, f: &mut fmt::Formatter<W>) -> fmt::Result {
        if self.0 < 0 {
            write!(f, "-")?;
        }
        write!(f, "{}", self.0.unsigned_abs())
    }
}

// A refusal with document 01's number and in a clockmaker's words, to the end of its line.
#[derive(Drop)]
pub struct Refused(pub Refusal);

impl Display for Refused {
    fn fmt<W: fmt::Write>(&self, f: &mut fmt::Formatter<W>) -> fmt::Result {
        let why = match self.0 {
            Refusal::NotWithinCapacity => " (no slot is free)\n",
            Refusal::FailedOrdRequirement => " (no strike can be placed so)\n",
            Refusal::InvalidPtr => " (no strike has this handle)\n",
            Refusal::BadLayout => " (no queue can be laid out so)\n",
            Refusal::NotSound => " (the store holds no sound queue)\n",
            Refusal::BadTime => " (there is no such time or drum)\n",
        };
        write!(f, "refused {}{why}", self.0.number())
    }
}
