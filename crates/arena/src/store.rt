// A store with its capacity: `Store` is written, `View` only read. Each has room for so many slots, wherever one stands.
// Above this crate a store is read and written through these methods alone, and their clauses say what `words` says of the numbers.
// A write leaves loan and capacity (specs/inner/Stored.antt): Becomes says the words besides, and SameLoan stands beside a result.
ghost use Rattle.arena.specs.Words.{Room};

use crate::words;

#[derive(Drop)]
pub struct Store<'a> {
    pub words: &'a mut [u64],
    pub cap: u64,
    pub ghost room: { Room words.now cap },
}

#[derive(Clone, Copy)]
pub struct View<'a> {
    pub words: &'a [u64],
    pub cap: u64,
    pub ghost room: { Room words.now cap },
}

impl<'a> Store<'a> {
    ghost use Rattle.std.specs.Prelude.{◌≡◌, ◌<◌};
    ghost use Rattle.arena.specs.Words.{field as field_of, put as put_of, head as head_of, put_head as put_head_of, fields, head_words};
    ghost use Rattle.arena.specs.inner.Stored.{Becomes};

    pub fn new(words: &'a mut [u64], cap: u64) -> Store<'a>
        requires room { Room words.old cap }
        ensures same { result.words.ghost_name ≡ words.entry.ghost_name }
        ensures now { result.words.now ≡ words.old }
        ensures cap { result.cap ≡ cap }
    {
        Store { words, cap }
    }

    // The same words, to be read.
    pub fn view(&self) -> View<'_>
        ensures words { result.words.now ≡ self.now.words.now }
        ensures cap { result.cap ≡ self.now.cap }
    {
        View {
            words: self.words,
            cap: self.cap,
        }
    }

    // What the field f of the slot i holds.
    pub fn field(&self, i: u64, f: u64) -> u64
        requires i_lt_cap { i < self.now.cap }
        requires f_lt_fields { f < fields }
        ensures { result ≡ field_of self.now.words.now self.now.cap i f }
    {
        words::field(self.words, self.cap, i, f)
    }

    // What the word h of the header holds.
    pub fn head(&self, h: u64) -> u64
        requires h_lt_head_words { h < head_words }
        ensures { result ≡ head_of self.now.words.now h }
    {
        words::head(self.words, h)
    }

    // The field f of the slot i becomes v.
    pub fn put(&mut self, i: u64, f: u64, v: u64)
        requires i_lt_cap { i < self.old.cap }
        requires f_lt_fields { f < fields }
        ensures { Becomes self.old self.new (put_of self.old.words.now self.old.cap i f v) }
    {
        words::put(self.words, self.cap, i, f, v);
    }

    // The word h of the header becomes v.
    pub fn put_head(&mut self, h: u64, v: u64)
        requires h_lt_head_words { h < head_words }
        ensures { Becomes self.old self.new (put_head_of self.old.words.now h v) }
    {
        words::put_head(self.words, h, v);
    }
}

impl<'a> View<'a> {
    ghost use Rattle.std.specs.Prelude.{◌≡◌, ◌<◌};
    ghost use Rattle.arena.specs.Words.{field as field_of, head as head_of, fields, head_words};

    // What the field f of the slot i holds.
    pub fn field(self, i: u64, f: u64) -> u64
        requires i_lt_cap { i < self.cap }
        requires f_lt_fields { f < fields }
        ensures { result ≡ field_of self.entry.words.now self.entry.cap i f }
    {
        words::field(self.words, self.cap, i, f)
    }

    // What the word h of the header holds.
    pub fn head(self, h: u64) -> u64
        requires h_lt_head_words { h < head_words }
        ensures { result ≡ head_of self.entry.words.now h }
    {
        words::head(self.words, h)
    }
}
