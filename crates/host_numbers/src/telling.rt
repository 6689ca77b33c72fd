// Answers as numbers: a code, and a row of four numbers that the host lends. Each function is equal to its definition in
// specs/inner/Told.antt, whatever the row held.
ghost use Rattle.std.specs.Prelude.{◌≡◌};
ghost use Rattle.host_numbers.specs.inner.Told.{row, handle_told, entry_told, refused_told, laid_out_told, inserted_told, ahead_told, removed_told, reading_told, side_code, searched_told, moved_told};

use arena::keys;
use handle::{Ahead, Entry, Handle, Inserted, Refusal, Removed, Side};
use queue::cursor::Cursor;
use queue::looking::Searched;

fn put_row(a: &mut [u64; 4], x: u64, y: u64, z: u64)
    ensures { a.new ≡ row x y z }
{
    *a = [x, y, z, 0];
}

fn refused(a: &mut [u64; 4], r: Refusal) -> u64
    ensures { (result, a.new) ≡ refused_told r }
{
    put_row(a, 0, 0, 0);
    r.number()
}

fn handle(a: &mut [u64; 4], code: u64, h: Handle, n: u64) -> u64
    ensures { (result, a.new) ≡ handle_told code h n }
{
    put_row(a, h.slot.0, h.generation.0, n);
    code
}

fn entry(a: &mut [u64; 4], code: u64, e: Entry) -> u64
    ensures { (result, a.new) ≡ entry_told code e }
{
    put_row(a, keys::stored_key(e.key), e.value, 0);
    code
}

pub fn laid_out(r: Result<(), Refusal>) -> u64
    ensures { result ≡ laid_out_told r }
{
    match r {
        Ok(()) => 16,
        Err(why) => why.number(),
    }
}

pub fn inserted(a: &mut [u64; 4], r: Result<Inserted, Refusal>) -> u64
    ensures { (result, a.new) ≡ inserted_told r }
{
    match r {
        Ok(Inserted::New(h)) => handle(a, 16, h, 0),
        Ok(Inserted::Replacing(h, old)) => handle(a, 17, h, old),
        Err(why) => refused(a, why),
    }
}

pub fn ahead(a: &mut [u64; 4], r: Result<Ahead, Refusal>) -> u64
    ensures { (result, a.new) ≡ ahead_told r }
{
    match r {
        Ok(Ahead::New(h)) => handle(a, 16, h, 0),
        Ok(Ahead::Replacing(h)) => handle(a, 17, h, 0),
        Err(why) => refused(a, why),
    }
}

pub fn removed(a: &mut [u64; 4], r: Result<Removed, Refusal>) -> u64
    ensures { (result, a.new) ≡ removed_told r }
{
    match r {
        Ok(Removed::Entry(e)) => entry(a, 16, e),
        Ok(Removed::GenerationOverflow(e)) => entry(a, 17, e),
        Err(why) => refused(a, why),
    }
}

pub fn reading(a: &mut [u64; 4], r: Result<Entry, Refusal>) -> u64
    ensures { (result, a.new) ≡ reading_told r }
{
    match r {
        Ok(e) => entry(a, 16, e),
        Err(why) => refused(a, why),
    }
}

fn side_code(side: Side) -> u64
    ensures { result ≡ side_code side }
{
    match side {
        Side::Less => 17,
        Side::Equal => 16,
        Side::Greater => 18,
    }
}

pub fn searched(a: &mut [u64; 4], r: Result<Searched, Refusal>) -> u64
    ensures { (result, a.new) ≡ searched_told r }
{
    match r {
        Ok(Searched::Equal(h, n)) => handle(a, 16, h, n),
        Ok(Searched::Beside(h, side, n)) => handle(a, side_code(side), h, n),
        Ok(Searched::Empty(n)) => {
            put_row(a, 0, 0, n);
            19
        }
        Err(why) => refused(a, why),
    }
}

pub fn moved(a: &mut [u64; 4], r: Result<Option<Cursor>, Refusal>) -> u64
    ensures { (result, a.new) ≡ moved_told r }
{
    match r {
        Ok(Some(c)) => handle(a, 16, c.handle, 0),
        Ok(None) => {
            put_row(a, 0, 0, 0);
            17
        }
        Err(why) => refused(a, why),
    }
}
