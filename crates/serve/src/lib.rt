// A script's commands carried out: each is one call of the queue, and its answer names entries by the numbers of insertions.
// Every method is safe on any store and any table.
#![tactic(auto)]

mod looking;
mod placing;

use arena::words::STORE;
use handle::Handle;
use script::table::Table;

// The store, and the table of the numbers of the insertions into it. It is large: make it once, in `main`.
#[derive(Drop)]
pub struct Served {
    pub store: [u64; STORE],
    pub table: Table,
}

impl Served {
    // Zeros are no laid out store: until the first `new` every call finds that its header fails.
    pub fn new() -> Served {
        Served {
            store: [0; STORE],
            table: Table::new(),
        }
    }

    fn handle_of(&self, n: u64) -> Handle {
        self.table.handle_of(n)
    }

    fn number_of(&self, h: Handle) -> u64 {
        self.table.number_of(h.slot.0)
    }
}
