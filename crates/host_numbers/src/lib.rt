// The public calls for hosts in Rust and C, which crate host_numbers_c exports: a number passes as itself, a slice as a pointer and a length, and
// an answer as a code with a row of four numbers (specs/inner/Told.antt). Each function is equal to its call's model on any words.
#![tactic(auto)]

mod telling;

ghost use Rattle.std.specs.Prelude.{◌≡◌};
ghost use Rattle.sound.specs.Decides.{Decides};
ghost use Rattle.arena.specs.inner.Laying.{lay_out_words};
ghost use Rattle.arena.specs.inner.Slots.{handle_with};
ghost use Rattle.queue.specs.inner.Placing.{insert_call, empty_call, manual_call, ahead_call, ahead_empty_call, ahead_manual_call};
ghost use Rattle.queue.specs.inner.Taking.{remove_call};
ghost use Rattle.queue.specs.inner.Looking.{search_call, read_call};
ghost use Rattle.queue.specs.inner.Moving.{start_call, stand_call, step_call};
ghost use Rattle.host_numbers.specs.inner.Told.{stores, tells, side_named, laid_out_told, inserted_told, ahead_told, removed_told, reading_told, searched_told, moved_told};

use handle::{Generation, Handle, Key, Side, Slot};
use queue::cursor::Cursor;
use queue::{looking, placing, taking};

// Less is 0, Equal 1, and any other number Greater.
fn side_named(n: u64) -> Side
    ensures { result ≡ side_named n }
{
    if n == 0 {
        return Side::Less;
    }
    if n == 1 {
        return Side::Equal;
    }
    Side::Greater
}

fn handle_of(slot: u64, generation: u64) -> Handle
    ensures { result ≡ handle_with slot generation }
{
    Handle {
        slot: Slot(slot),
        generation: Generation(generation),
    }
}

pub fn hosted_sound(s: &[u64]) -> bool
    ensures { Decides s.now result }
{
    sound::sound(s)
}

#[tactic(auto, unfolding(crate::specs::inner::Told::stores))]
pub fn hosted_lay_out(s: &mut [u64], capacity: u64, top: u64) -> u64
    ensures { (s.new, result) ≡ stores laid_out_told (lay_out_words s.old capacity top) }
{
    let r = placing::lay_out(s, capacity, top);
    telling::laid_out(r)
}

#[tactic(auto, unfolding(crate::specs::inner::Told::stores))]
pub fn hosted_insert(s: &mut [u64], key: i64, value: u64, a: &mut [u64; 4]) -> u64
    ensures { (s.new, (result, a.new)) ≡ stores inserted_told (insert_call s.old key value) }
{
    let r = placing::insert(s, Key(key), value);
    telling::inserted(a, r)
}

#[tactic(auto, unfolding(crate::specs::inner::Told::stores))]
pub fn hosted_insert_empty(s: &mut [u64], key: i64, value: u64, a: &mut [u64; 4]) -> u64
    ensures { (s.new, (result, a.new)) ≡ stores inserted_told (empty_call s.old key value) }
{
    let r = placing::insert_empty(s, Key(key), value);
    telling::inserted(a, r)
}

#[tactic(auto, unfolding(crate::specs::inner::Told::stores))]
pub fn hosted_insert_manual(
    s: &mut [u64],
    slot: u64,
    generation: u64,
    side: u64,
    key: i64,
    value: u64,
    a: &mut [u64; 4],
) -> u64
    ensures { (s.new, (result, a.new)) ≡ stores inserted_told (manual_call s.old (handle_with slot generation) (side_named side) key value) }
{
    let h = handle_of(slot, generation);
    let d = side_named(side);
    let r = placing::insert_manual(s, h, d, Key(key), value);
    telling::inserted(a, r)
}

#[tactic(auto, unfolding(crate::specs::inner::Told::tells))]
pub fn hosted_look_ahead(s: &[u64], key: i64, a: &mut [u64; 4]) -> u64
    ensures { (result, a.new) ≡ tells ahead_told (ahead_call s.now key) }
{
    let r = placing::look_ahead(s, Key(key));
    telling::ahead(a, r)
}

pub fn hosted_look_ahead_empty(s: &[u64], a: &mut [u64; 4]) -> u64
    ensures { (result, a.new) ≡ tells ahead_told (ahead_empty_call s.now) }
{
    let r = placing::look_ahead_empty(s);
    telling::ahead(a, r)
}

#[tactic(auto, unfolding(crate::specs::inner::Told::tells))]
pub fn hosted_look_ahead_manual(
    s: &[u64],
    slot: u64,
    generation: u64,
    side: u64,
    key: i64,
    a: &mut [u64; 4],
) -> u64
    ensures { (result, a.new) ≡ tells ahead_told (ahead_manual_call s.now (handle_with slot generation) (side_named side) key) }
{
    let h = handle_of(slot, generation);
    let d = side_named(side);
    let r = placing::look_ahead_manual(s, h, d, Key(key));
    telling::ahead(a, r)
}

#[tactic(auto, unfolding(crate::specs::inner::Told::stores))]
pub fn hosted_remove(s: &mut [u64], slot: u64, generation: u64, a: &mut [u64; 4]) -> u64
    ensures { (s.new, (result, a.new)) ≡ stores removed_told (remove_call s.old (handle_with slot generation)) }
{
    let h = handle_of(slot, generation);
    let r = taking::remove(s, h);
    telling::removed(a, r)
}

#[tactic(auto, unfolding(crate::specs::inner::Told::tells))]
pub fn hosted_read(s: &[u64], slot: u64, generation: u64, a: &mut [u64; 4]) -> u64
    ensures { (result, a.new) ≡ tells reading_told (read_call s.now (handle_with slot generation)) }
{
    let h = handle_of(slot, generation);
    let r = looking::read(s, h);
    telling::reading(a, r)
}

#[tactic(auto, unfolding(crate::specs::inner::Told::tells))]
pub fn hosted_search(s: &[u64], key: i64, a: &mut [u64; 4]) -> u64
    ensures { (result, a.new) ≡ tells searched_told (search_call s.now key) }
{
    let r = looking::search(s, Key(key));
    telling::searched(a, r)
}

#[tactic(auto, unfolding(crate::specs::inner::Told::tells))]
pub fn hosted_first(s: &[u64], a: &mut [u64; 4]) -> u64
    ensures { (result, a.new) ≡ tells moved_told (start_call s.now 0) }
{
    let r = Cursor::first(s);
    telling::moved(a, r)
}

#[tactic(auto, unfolding(crate::specs::inner::Told::tells))]
pub fn hosted_last(s: &[u64], a: &mut [u64; 4]) -> u64
    ensures { (result, a.new) ≡ tells moved_told (start_call s.now 1) }
{
    let r = Cursor::last(s);
    telling::moved(a, r)
}

#[tactic(auto, unfolding(crate::specs::inner::Told::tells))]
pub fn hosted_at(s: &[u64], slot: u64, generation: u64, a: &mut [u64; 4]) -> u64
    ensures { (result, a.new) ≡ tells moved_told (stand_call s.now (handle_with slot generation)) }
{
    let h = handle_of(slot, generation);
    let r = Cursor::at(s, h);
    telling::moved(a, r)
}

#[tactic(auto, unfolding(crate::specs::inner::Told::tells))]
pub fn hosted_forward(s: &[u64], slot: u64, generation: u64, a: &mut [u64; 4]) -> u64
    ensures { (result, a.new) ≡ tells moved_told (step_call s.now (handle_with slot generation) 1) }
{
    let h = handle_of(slot, generation);
    let from = Cursor { handle: h };
    let r = from.forward(s);
    telling::moved(a, r)
}

#[tactic(auto, unfolding(crate::specs::inner::Told::tells))]
pub fn hosted_back(s: &[u64], slot: u64, generation: u64, a: &mut [u64; 4]) -> u64
    ensures { (result, a.new) ≡ tells moved_told (step_call s.now (handle_with slot generation) 0) }
{
    let h = handle_of(slot, generation);
    let from = Cursor { handle: h };
    let r = from.back(s);
    telling::moved(a, r)
}
