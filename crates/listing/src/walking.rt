// A walk along the chain by the cursor, from the first entry on: the handles of the entries, at most so many.
ghost use Rattle.std.specs.Prelude.{◌≡◌};
ghost use Rattle.std.specs.Iterator.{at_most};

use handle::{Handle, Refusal};
use queue::cursor::Cursor;

// Where the cursor has come to, and how many entries may still be handed out. It is over at the chain's end, at a refusal, or
// when none may; `moved` tells which.
#[derive(Clone, Copy)]
pub struct Walk<'a> {
    store: &'a [u64],
    pub moved: Result<Option<Cursor>, Refusal>,
    pub left: u64,
}

impl<'a> Walk<'a> {
    pub fn first(store: &'a [u64], most: u64) -> Walk<'a>
        ensures { result.left ≡ most }
    {
        Walk {
            store,
            moved: Cursor::first(store),
            left: most,
        }
    }
}

impl<'a> Iterator for Walk<'a> {
    type Item = Handle;

    ghost remaining = { λ walk. at_most walk.left };

    fn next(&mut self) -> Option<Handle> {
        if self.left == 0 {
            return None;
        }
        let Ok(Some(cursor)) = self.moved else {
            return None;
        };
        self.moved = cursor.forward(self.store);
        self.left -= 1;
        Some(cursor.handle)
    }
}
