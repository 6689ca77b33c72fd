// Document 01's listing: `live L free F retired R`, then a line for each entry in order. The cursor walks the chain; ranks are
// the store's words. It is written by `{}`, into a buffer or at once on standard output. Its parts promise which text they write,
// where the writer takes it all; `print` promises nothing.
#![tactic(auto)]

pub mod walking;

ghost use Rattle.std.specs.Prelude.{◌≡◌, ◌<◌, ◌≤◌, ◌∷◌, ◌++◌, Ok, Err, IfOk};
ghost use Rattle.std.specs.Fmt.{WritesOnOk, decimal, signed_decimal};
ghost use Rattle.handle.specs.declared.Entry.{Entry};
ghost use Rattle.queue.specs.inner.Looking.{read_call};
ghost use Rattle.arena.specs.Header.{header_of};
ghost use Rattle.handle.specs.declared.Refusal.{Refusal};
ghost use Rattle.handle.specs.Numbers.{refusal_number};
ghost use Rattle.arena.specs.Words.{field, RANK as RANK_OF};

use arena::header;
use arena::store::View;
use arena::words::{HEIGHT, RANK};
use handle::{Handle, Refusal};
use output::out::Out;
use output::phrases::Refused;
use output::say;
use queue::looking;
use std::fmt;
use std::fmt::{Display, Formatter};
use walking::Walk;

// Lists at once on standard output.
pub fn print(store: &[u64]) {
    match Listing::of(store) {
        Ok(listing) => {
            let mut out = Out::new();
            write!(out, "{listing}");
            out.flush();
        }
        Err(r) => say!("{}", Refused(r)),
    }
}

// A store whose header passes, to be listed.
#[derive(Clone, Copy)]
pub struct Listing<'a> {
    pub store: View<'a>,
}

impl<'a> Listing<'a> {
    pub fn of(words: &'a [u64]) -> Result<Listing<'a>, Refusal>
        ensures lists { IfOk result (λ l. (l.store.words.now ≡ words.now) × (header_of words.now ≡ Ok l.store.cap)) }
        ensures refused { (r : Refusal) → header_of words.now ≡ Err r → result ≡ Err r }
    {
        let cap = header::test(words)?;
        let store = View { words, cap };
        Ok(Listing { store })
    }

    // The handles of the entries in order. No chain has more entries than slots.
    pub fn entries(&self) -> Walk<'a>
        ensures { result.left ≡ self.now.store.cap }
    {
        Walk::first(self.store.words, self.store.cap)
    }

    // How many entries the chain has.
    pub fn live(&self) -> u64
        ensures { result ≤ self.now.store.cap }
    {
        self.entries().count() as u64
    }

    // The key and the value of an entry, or the number of the refusal.
    pub fn key_and_value<W: fmt::Write>(&self, h: Handle, f: &mut Formatter<W>) -> fmt::Result
        ensures entry { (e : Entry) → read_call self.now.store.words.now h ≡ Ok e → WritesOnOk W.write_str_gives f.old result (signed_decimal e.key.0 ++ 32 ∷ decimal e.value) f.new }
        ensures refused { (r : Refusal) → read_call self.now.store.words.now h ≡ Err r → WritesOnOk W.write_str_gives f.old result (decimal (refusal_number r)) f.new }
    {
        match looking::read(self.store.words, h) {
            Ok(e) => {
                e.key.0.fmt(f)?;
                more(e.value, f)
            }
            Err(r) => r.number().fmt(f),
        }
    }

    // A space, and the rank of a slot.
    pub fn rank<W: fmt::Write>(&self, slot: u64, f: &mut Formatter<W>) -> fmt::Result
        ensures { slot < self.now.store.cap → WritesOnOk W.write_str_gives f.old result (32 ∷ decimal (field self.now.store.words.now self.now.store.cap slot RANK_OF)) f.new }
    {
        if slot < self.store.cap {
            more(self.store.field(slot, RANK), f)
        } else {
            Ok(())
        }
    }

    // `live L free F retired R`: a slot that is neither live nor free is retired.
    fn counts<W: fmt::Write>(&self, f: &mut Formatter<W>) -> fmt::Result {
        let live = self.live();
        let free = self.store.head(HEIGHT);
        let retired = self.store.cap.saturating_sub(live).saturating_sub(free);
        writeln!(f, "live {live} free {free} retired {retired}")
    }

    // `KEY VALUE SLOT GENERATION RANK`
    fn entry<W: fmt::Write>(&self, h: Handle, f: &mut Formatter<W>) -> fmt::Result {
        self.key_and_value(h, f)?;
        more(h.slot.0, f)?;
        more(h.generation.0, f)?;
        self.rank(h.slot.0, f)?;
        f.write_str("\n")
    }
}

// A space, and a number. Lines of entries are many: this is cheaper than a format of their own.
pub fn more<W: fmt::Write>(n: u64, f: &mut Formatter<W>) -> fmt::Result
    ensures { WritesOnOk W.write_str_gives f.old result (32 ∷ decimal n) f.new }
{
    f.write_str(" ")?;
    n.fmt(f)
}

impl<'a> Display for Listing<'a> {
    fn fmt<W: fmt::Write>(&self, f: &mut Formatter<W>) -> fmt::Result {
        self.counts(f)?;
        for h in self.entries() {
            self.entry(h, f)?;
        }
        Ok(())
    }
}
