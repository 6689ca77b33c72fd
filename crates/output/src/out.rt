// Output: text is collected in a buffer, which is written out when it is full and at the end of the run.
// `write!` into it never fails: what the system does not take is told on standard error.
ghost use Rattle.std.specs.Prelude.{◌<◌, ◌≤◌};
ghost use Rattle.output.specs.declared.out.TheConstants.{ROOM};

use std::fmt;
use std::fmt::{Display, Write};

// The descriptors that a program writes to.
pub const STANDARD_OUTPUT: i32 = 1;

pub const STANDARD_ERROR: i32 = 2;

// How many bytes are collected before a write.
pub const ROOM: usize = 65536;

// What is collected, and how much of it there is. It is large: make it once, in `main`.
#[derive(Drop)]
pub struct Out {
    collected: [u8; ROOM],
    filled: usize,
    ghost in_room: { filled ≤ ROOM },
}

impl Out {
    pub fn new() -> Out {
        Out {
            collected: io::large_buffer(),
            filled: 0,
        }
    }

    // Writes out what is collected, and begins again. What the system does not take is told on standard error: nothing
    // else can be done.
    pub fn flush(&mut self) {
        let collected = &self.collected[..self.filled];
        if !io::write_all(STANDARD_OUTPUT, collected) {
            io::write_all(STANDARD_ERROR, b"could not write all of the output\n");
        }
        self.filled = 0;
    }

    // What `write!` calls.
    pub fn write_fmt<D: Display + Drop>(&mut self, text: D) {
        let _ = self.write(text);
    }

    // Out of line, so that the way of a text that fits stays short.
    #[inline(never)]
    fn push_all(&mut self, bytes: &[u8]) {
        for b in bytes {
            self.push(*b);
        }
    }

    fn push(&mut self, b: u8) {
        let at = self.next_place();
        self.collected[at] = b;
        self.filled = at + 1;
    }

    // Where the next byte goes.
    fn next_place(&mut self) -> usize
        ensures { result < ROOM }
    {
        if self.filled < ROOM {
            return self.filled;
        }
        self.flush();
        0
    }
}

impl Write for Out {
    // The loop, in place of `copy_from_slice`, lets the compiler put all of this in line. A text that does not fit fills the buffer
    // first, so that but for the last each write is of a full one.
    fn write_str(&mut self, s: &str) -> fmt::Result {
        let bytes = s.as_bytes();
        if bytes.len() <= ROOM - self.filled {
            let end = self.filled + bytes.len();
            let free = &mut self.collected[self.filled..end];
            for (place, b) in free.iter_mut().zip(bytes) {
                *place = *b;
            }
            self.filled = end;
        } else {
            self.push_all(bytes);
        }
        Ok(())
    }
}
