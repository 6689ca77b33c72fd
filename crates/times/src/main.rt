// A table of due times: reads questions from standard input, a line each, and writes each line with its answer.
// `key DAY SECOND OFFSET DRUM` asks for a key, `time KEY OFFSET` for a local time and its drum; lines that are empty or
// begin with # are copied. All that matters is in the crate `due`; this program only reads and writes numbers, and
// nothing else relies on it.
#![tactic(auto)]

mod text;

use due::{BadTime, Drum, Time};
use handle::Key;
use input::lines::{Line, Reader};
use output::phrases::Signed;
use output::{console, say, say_line};
use text::Asked;

// Bytes that are kept of a line: the longest question, of four numbers, has 87.
const LINE: usize = 96;

fn show_key(answer: Result<Key, BadTime>) {
    match answer {
        Ok(key) => say!("{}", Signed(key.0)),
        Err(BadTime) => say!("refused 6"),
    }
}

fn show_time(answer: Result<(Time, Drum), BadTime>) {
    match answer {
        Ok((time, drum)) => {
            let second = Signed(time.second.0);
            say!("{} {second} {}", Signed(time.day.0), Signed(drum.0));
        }
        Err(BadTime) => say!("refused 6"),
    }
}

fn answer(line: &[u8]) {
    console::bytes(line);
    if text::is_remark(line) {
        say_line!("");
        return;
    }
    say!(" -> ");
    match text::question(line) {
        Some(Asked::Key(time, offset, drum)) => show_key(due::key_of(time, offset, drum)),
        Some(Asked::Time(key, offset)) => show_time(due::time_of(key, offset)),
        None => say!("no question"),
    }
    say_line!("");
}

// A proved loop has to end, and nothing says that the input does: so it has more turns than any run uses up.
fn answer_all(reader: &mut Reader<'_>) {
    for _ in 0..u64::MAX {
        match reader.next() {
            Line::Whole(line) => answer(line),
            Line::TooLong => say_line!("(a line that is too long) -> no question"),
            Line::Begun | Line::Failed => {}
            Line::End => break,
        }
    }
}

fn main(rt: HostRuntime) {
    let mut part = io::large_buffer();
    let mut line = [0u8; LINE];
    let mut reader = Reader::new(rt.stdin(), &mut part, &mut line);
    answer_all(&mut reader);
}
