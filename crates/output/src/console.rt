// Text at once on standard output, for programs that write little: `say_line!("took {n} slots")`.
// What the system does not take is lost: nothing else can be done about it here.
use crate::out::STANDARD_OUTPUT;
use std::fmt;
use std::fmt::{Display, Write};

// As `print!`, but it never fails.
#[macro_export]
macro_rules! say {
    ($($arg:tt)*) => {
        $crate::console::formatted(format_args!($($arg)*))
    };
}

// As `println!`, likewise.
#[macro_export]
macro_rules! say_line {
    ($($arg:tt)*) => {
        $crate::console::formatted(format_args_nl!($($arg)*))
    };
}

// What these call.
pub fn formatted<D: Display + Drop>(text: D) {
    let _ = Console.write(text);
}

// Bytes that need not be text, as a line of input.
pub fn bytes(b: &[u8]) {
    io::write_all(STANDARD_OUTPUT, b);
}

// Standard output, with no buffer before it.
#[derive(Drop)]
struct Console;

impl Write for Console {
    fn write_str(&mut self, s: &str) -> fmt::Result {
        bytes(s.as_bytes());
        Ok(())
    }
}
