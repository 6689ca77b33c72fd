// The exports of crate host_numbers for callers in C and Rust: a static library, whose symbols and clauses are those of the
// library's functions. A library can't be a static library too, so that this crate only calls that one.
#![tactic(auto)]

ghost use Rattle.std.specs.Prelude.{◌≡◌};
ghost use Rattle.sound.specs.Decides.{Decides};
ghost use Rattle.arena.specs.inner.Laying.{lay_out_words};
ghost use Rattle.arena.specs.inner.Slots.{handle_with};
ghost use Rattle.queue.specs.inner.Placing.{insert_call, empty_call, manual_call, ahead_call, ahead_empty_call, ahead_manual_call};
ghost use Rattle.queue.specs.inner.Taking.{remove_call};
ghost use Rattle.queue.specs.inner.Looking.{search_call, read_call};
ghost use Rattle.queue.specs.inner.Moving.{start_call, stand_call, step_call};
ghost use Rattle.host_numbers.specs.inner.Told.{stores, tells, side_named, laid_out_told, inserted_told, ahead_told, removed_told, reading_told, searched_told, moved_told};

#[unsafe(no_mangle)]
pub extern "C" fn hosted_sound(s: &[u64]) -> bool
    ensures { Decides s.now result }
{
    host_numbers::hosted_sound(s)
}

#[unsafe(no_mangle)]
pub extern "C" fn hosted_lay_out(s: &mut [u64], capacity: u64, top: u64) -> u64
    ensures { (s.new, result) ≡ stores laid_out_told (lay_out_words s.old capacity top) }
{
    host_numbers::hosted_lay_out(s, capacity, top)
}

#[unsafe(no_mangle)]
pub extern "C" fn hosted_insert(s: &mut [u64], key: i64, value: u64, a: &mut [u64; 4]) -> u64
    ensures { (s.new, (result, a.new)) ≡ stores inserted_told (insert_call s.old key value) }
{
    host_numbers::hosted_insert(s, key, value, a)
}

#[unsafe(no_mangle)]
pub extern "C" fn hosted_insert_empty(s: &mut [u64], key: i64, value: u64, a: &mut [u64; 4]) -> u64
    ensures { (s.new, (result, a.new)) ≡ stores inserted_told (empty_call s.old key value) }
{
    host_numbers::hosted_insert_empty(s, key, value, a)
}

#[unsafe(no_mangle)]
pub extern "C" fn hosted_insert_manual(
    s: &mut [u64],
    slot: u64,
    generation: u64,
    side: u64,
    key: i64,
    value: u64,
    a: &mut [u64; 4],
) -> u64
    ensures { (s.new, (result, a.new)) ≡ stores inserted_told (manual_call s.old (handle_with slot generation) (side_named side) key value) }
{
    host_numbers::hosted_insert_manual(s, slot, generation, side, key, value, a)
}

#[unsafe(no_mangle)]
pub extern "C" fn hosted_look_ahead(s: &[u64], key: i64, a: &mut [u64; 4]) -> u64
    ensures { (result, a.new) ≡ tells ahead_told (ahead_call s.now key) }
{
    host_numbers::hosted_look_ahead(s, key, a)
}

#[unsafe(no_mangle)]
pub extern "C" fn hosted_look_ahead_empty(s: &[u64], a: &mut [u64; 4]) -> u64
    ensures { (result, a.new) ≡ tells ahead_told (ahead_empty_call s.now) }
{
    host_numbers::hosted_look_ahead_empty(s, a)
}

#[unsafe(no_mangle)]
pub extern "C" fn hosted_look_ahead_manual(
    s: &[u64],
    slot: u64,
    generation: u64,
    side: u64,
    key: i64,
    a: &mut [u64; 4],
) -> u64
    ensures { (result, a.new) ≡ tells ahead_told (ahead_manual_call s.now (handle_with slot generation) (side_named side) key) }
{
    host_numbers::hosted_look_ahead_manual(s, slot, generation, side, key, a)
}

#[unsafe(no_mangle)]
pub extern "C" fn hosted_remove(s: &mut [u64], slot: u64, generation: u64, a: &mut [u64; 4]) -> u64
    ensures { (s.new, (result, a.new)) ≡ stores removed_told (remove_call s.old (handle_with slot generation)) }
{
    host_numbers::hosted_remove(s, slot, generation, a)
}

#[unsafe(no_mangle)]
pub extern "C" fn hosted_read(s: &[u64], slot: u64, generation: u64, a: &mut [u64; 4]) -> u64
    ensures { (result, a.new) ≡ tells reading_told (read_call s.now (handle_with slot generation)) }
{
    host_numbers::hosted_read(s, slot, generation, a)
}

#[unsafe(no_mangle)]
pub extern "C" fn hosted_search(s: &[u64], key: i64, a: &mut [u64; 4]) -> u64
    ensures { (result, a.new) ≡ tells searched_told (search_call s.now key) }
{
    host_numbers::hosted_search(s, key, a)
}

#[unsafe(no_mangle)]
pub extern "C" fn hosted_first(s: &[u64], a: &mut [u64; 4]) -> u64
    ensures { (result, a.new) ≡ tells moved_told (start_call s.now 0) }
{
    host_numbers::hosted_first(s, a)
}

#[unsafe(no_mangle)]
pub extern "C" fn hosted_last(s: &[u64], a: &mut [u64; 4]) -> u64
    ensures { (result, a.new) ≡ tells moved_told (start_call s.now 1) }
{
    host_numbers::hosted_last(s, a)
}

#[unsafe(no_mangle)]
pub extern "C" fn hosted_at(s: &[u64], slot: u64, generation: u64, a: &mut [u64; 4]) -> u64
    ensures { (result, a.new) ≡ tells moved_told (stand_call s.now (handle_with slot generation)) }
{
    host_numbers::hosted_at(s, slot, generation, a)
}

#[unsafe(no_mangle)]
pub extern "C" fn hosted_forward(s: &[u64], slot: u64, generation: u64, a: &mut [u64; 4]) -> u64
    ensures { (result, a.new) ≡ tells moved_told (step_call s.now (handle_with slot generation) 1) }
{
    host_numbers::hosted_forward(s, slot, generation, a)
}

#[unsafe(no_mangle)]
pub extern "C" fn hosted_back(s: &[u64], slot: u64, generation: u64, a: &mut [u64; 4]) -> u64
    ensures { (result, a.new) ≡ tells moved_told (step_call s.now (handle_with slot generation) 0) }
{
    host_numbers::hosted_back(s, slot, generation, a)
}
