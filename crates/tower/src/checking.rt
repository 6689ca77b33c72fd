// The check of a store, and a store that it must find broken.
use arena::header;
use arena::store::Store;
use arena::words::NEXT;
use handle::Handle;
use output::say_line;
use queue::looking;

// Says whether the store is sound.
pub fn check(s: &[u64]) {
    if looking::check(s) {
        say_line!("sound");
    } else {
        say_line!("not sound");
    }
}

// The strike that h names loses its link to the next one.
pub fn lose_link(s: &mut [u64], h: Handle) {
    let Ok(cap) = header::test(s) else {
        return;
    };
    let i = h.slot.0;
    if i < cap {
        Store::new(s, cap).put(i, NEXT, Handle::NO_SLOT);
    }
}
