// A script's `dump`: the entries in order, walked by the cursor, with ranks and links as the store has them.
// Entries are named by the numbers of their insertions. `{}` writes it, in many lines.
ghost use Rattle.std.specs.Prelude.{◌<◌};

use arena::words::{BACK, FIRST, LAST, LEFT, NEXT, PREV, RIGHT, ROOT};
use handle::{Handle, Refusal};
use listing::{Listing, more};
use script::table::Table;
use std::fmt;
use std::fmt::{Display, Formatter};

// A store whose header passes, to be dumped, and the table of insertions' numbers.
#[derive(Drop)]
pub struct Dump<'a> {
    listing: Listing<'a>,
    table: &'a Table,
}

impl<'a> Dump<'a> {
    pub fn of(store: &'a [u64], table: &'a Table) -> Result<Dump<'a>, Refusal> {
        let listing = Listing::of(store)?;
        Ok(Dump { listing, table })
    }

    // `dump LIVE root N first N last N`
    fn ends<W: fmt::Write>(&self, f: &mut Formatter<W>) -> fmt::Result {
        let store = self.listing.store;
        f.write_str("dump")?;
        more(self.listing.live(), f)?;
        f.write_str(" root")?;
        self.link(store.head(ROOT), f)?;
        f.write_str(" first")?;
        self.link(store.head(FIRST), f)?;
        f.write_str(" last")?;
        self.link(store.head(LAST), f)?;
        f.write_str("\n")
    }

    // `N KEY VALUE RANK BACK LEFT RIGHT PREV NEXT`
    fn entry<W: fmt::Write>(&self, h: Handle, f: &mut Formatter<W>) -> fmt::Result {
        let slot = h.slot.0;
        self.table.number_of(slot).fmt(f)?;
        f.write_str(" ")?;
        self.listing.key_and_value(h, f)?;
        self.listing.rank(slot, f)?;
        let store = self.listing.store;
        if slot < store.cap {
            for field in [BACK, LEFT, RIGHT, PREV, NEXT] {
                self.link(store.field(slot, field), f)?;
            }
        }
        f.write_str("\n")
    }

    // A space, and the number of the insertion whose entry is in a slot, or `-` for no slot.
    fn link<W: fmt::Write>(&self, slot: u64, f: &mut Formatter<W>) -> fmt::Result {
        if slot == Handle::NO_SLOT {
            f.write_str(" -")
        } else {
            more(self.table.number_of(slot), f)
        }
    }
}

impl<'a> Display for Dump<'a> {
    fn fmt<W: fmt::Write>(&self, f: &mut Formatter<W>) -> fmt::Result {
        self.ends(f)?;
        for h in self.listing.entries() {
            self.entry(h, f)?;
        }
        Ok(())
    }
}
