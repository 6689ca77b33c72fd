// The words of a store: sixteen of header, then what a search reads of each slot, then the rest of each slot.
// Above this module only `field`, `put`, `head` and `put_head` touch a store, and their laws (proofs/WordLaws.antt) say all that is known of them.
ghost use Rattle.std.specs.Prelude.{◌≡◌, ◌<◌};
ghost use Rattle.arena.specs.Words.{Long, Room, field as field_of, put as put_of, head as head_of, put_head, fields, head_words};

use handle::LIMIT;

// How many words the header has, and how many fields a slot.
pub const HEAD_WORDS: u64 = 16;

pub const FIELDS: u64 = 10;

// How many words a store of the most slots takes.
pub const STORE: usize = (HEAD_WORDS + LIMIT * FIELDS) as usize;

// The budget of every path in the tree, down or up: no rank of a sound store reaches it.
pub const BUDGET: u64 = 64;

// The fields of a slot.
pub const KEY: u64 = 0;

pub const LEFT: u64 = 1;

pub const RIGHT: u64 = 2;

pub const RANK: u64 = 3;

pub const BACK: u64 = 4;

pub const PREV: u64 = 5;

pub const NEXT: u64 = 6;

pub const GENERATION: u64 = 7;

pub const VALUE: u64 = 8;

pub const STACK: u64 = 9;

// The words of the header.
pub const CAPACITY: u64 = 0;

pub const TOP: u64 = 1;

pub const HEIGHT: u64 = 2;

pub const FIRST: u64 = 3;

pub const LAST: u64 = 4;

pub const ROOT: u64 = 5;

// What the field f of the slot i holds, in a store of the given capacity.
#[tactic(auto, unfolding(crate::specs::Words::field, crate::specs::Words::word_at))]
pub fn field(s: &[u64], cap: u64, i: u64, f: u64) -> u64
    requires room { Room s.now cap }
    requires i_lt_cap { i < cap }
    requires f_lt_fields { f < fields }
    ensures { result ≡ field_of s.now cap i f }
{
    if f < 4 {
        return s[(HEAD_WORDS + i * 4 + f) as usize];
    }
    s[(HEAD_WORDS + cap * 4 + i * 6 + (f - 4)) as usize]
}

// The field f of the slot i becomes v.
#[tactic(auto, unfolding(crate::specs::Words::put, crate::specs::Words::word_at))]
pub fn put(s: &mut [u64], cap: u64, i: u64, f: u64, v: u64)
    requires room { Room s.old cap }
    requires i_lt_cap { i < cap }
    requires f_lt_fields { f < fields }
    ensures { s.new ≡ put_of s.old cap i f v }
{
    if f < 4 {
        s[(HEAD_WORDS + i * 4 + f) as usize] = v;
    } else {
        s[(HEAD_WORDS + cap * 4 + i * 6 + (f - 4)) as usize] = v;
    }
}

// What the word h of the header holds.
#[tactic(auto, unfolding(crate::specs::Words::head))]
pub fn head(s: &[u64], h: u64) -> u64
    requires long { Long s.now 0 }
    requires h_lt_head_words { h < head_words }
    ensures { result ≡ head_of s.now h }
{
    s[h as usize]
}

// The word h of the header becomes v.
#[tactic(auto, unfolding(crate::specs::Words::put_head))]
pub fn put_head(s: &mut [u64], h: u64, v: u64)
    requires long { Long s.old 0 }
    requires h_lt_head_words { h < head_words }
    ensures { s.new ≡ put_head s.old h v }
{
    s[h as usize] = v;
}
