// Standard input, a line at a time: `main` has it of the system and passes it on. The caller lends a reader the bytes of one
// read and those of one line. What stands behind the last newline is a line too. Every call is safe with any input.
ghost use Rattle.std.specs.Prelude.{◌≡◌, ◌+◌, ◌-◌, ◌≤◌, length};

use std::io::{Read as Reads, Stdin};
use std::mem;

// How many bytes are read at once.
pub const PART: usize = 65536;

// What a call of `next` came to: a line; one that has more bytes than were lent; one that is only begun, and goes on in the
// next part. Where a read fails, none follows it, and what was read before is still to come.
#[derive(Clone, Copy, Debug)]
pub enum Line<'a> {
    Whole(&'a [u8]),
    TooLong,
    Begun,
    Failed,
    End,
}

// The bytes from `at` to `end` of the part are still to be read; a part that ends at 0 is the last. So many bytes of a line are
// held, unless it is too long.
#[derive(Drop)]
pub struct Reader<'a> {
    input: Stdin,
    part: &'a mut [u8],
    line: &'a mut [u8],
    at: usize,
    end: usize,
    held: usize,
    is_too_long: bool,
    ghost in_part: { (at ≤ end) × (end ≤ length part.now) },
    ghost in_line: { held ≤ length line.now },
}

impl<'a> Reader<'a> {
    ghost use Rattle.input.specs.inner.Lines.{LineFits};

    // Before the first read, as if a part had been used up.
    pub fn new(input: Stdin, part: &'a mut [u8; PART], line: &'a mut [u8]) -> Reader<'a> {
        Reader {
            input,
            part,
            line,
            at: PART,
            end: PART,
            held: 0,
            is_too_long: false,
        }
    }

    // On to the end of the line or of the part, or to the next part.
    pub fn next(&mut self) -> Line<'_>
        ensures { LineFits result (length self.old.line.now) }
    {
        if self.at < self.end {
            return self.scan();
        }
        if 0 < self.end {
            return self.read_part();
        }
        if 0 < self.held || self.is_too_long {
            return self.whole();
        }
        Line::End
    }

    // The next part. After a read that failed the part is empty, and so the last.
    fn read_part(&mut self) -> Line<'static>
        ensures { LineFits result 0 }
    {
        let part = &mut *self.part;
        let got = self.input.read(part);
        self.at = 0;
        match got {
            Ok(end) => {
                self.end = end;
                Line::Begun
            }
            Err(_) => {
                self.end = 0;
                Line::Failed
            }
        }
    }

    // Keeps the part's bytes up to the next newline.
    fn scan(&mut self) -> Line<'_>
        ensures { LineFits result (length self.old.line.now) }
    {
        let part = &*self.part;
        let bytes = &part[self.at..self.end];
        match bytes.iter().position(|&b| b == b'\n') {
            Some(n) => {
                self.keep(n);
                self.at += 1;
                self.whole()
            }
            None => {
                let n = bytes.len();
                self.keep(n);
                Line::Begun
            }
        }
    }

    // So many more bytes of the line, where there is room for them.
    fn keep(&mut self, n: usize)
        requires { n ≤ self.old.end - self.old.at }
        ensures { (self.new.at ≡ self.old.at + n) × (self.new.end ≡ self.old.end) × (length self.new.line.now ≡ length self.old.line.now) }
    {
        let line = &mut *self.line;
        let part = &*self.part;
        if n <= line.len() - self.held {
            line[self.held..self.held + n].copy_from_slice(&part[self.at..self.at + n]);
            self.held += n;
        } else {
            self.is_too_long = true;
        }
        self.at += n;
    }

    // The line that is held; the next one begins behind it.
    fn whole(&mut self) -> Line<'_>
        ensures { LineFits result (length self.old.line.now) }
    {
        let held = mem::replace(&mut self.held, 0);
        if mem::replace(&mut self.is_too_long, false) {
            return Line::TooLong;
        }
        Line::Whole(&self.line[..held])
    }
}
