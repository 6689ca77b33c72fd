// Reads a script on standard input and writes the queue's answers on standard output, a line for a line.
// The script language is that of paired runs: the same script gives the same bytes from the Rust side.
#![tactic(auto)]

mod dumping;

use answers::answer::Answer;
use dumping::Dump;
use handle::Refusal;
use input::lines::{Line, Reader};
use listing::Listing;
use output::out::{Out, STANDARD_ERROR};
use script::command;
use script::command::Command;
use serve::Served;
use std::fmt::Display;

// The longest line that is read.
const LONGEST: usize = 128;

// Carries a command out and writes its answer.
fn respond(c: Command, served: &mut Served, out: &mut Out) {
    let answer = match c {
        Command::Nothing => Ok(Answer::Nothing),
        Command::Bad => Ok(Answer::BadLine),
        Command::Unknown => Ok(Answer::Unknown),
        Command::New(capacity, top) => served.lay_out(capacity, top),
        Command::Insert(place, entry) => served.insert(place, entry),
        Command::Ahead(place, key) => served.look_ahead(place, key),
        Command::Remove(n) => served.remove(n),
        Command::Get(n) => served.get(n),
        Command::Find(key) => served.find(key),
        Command::Next(n) => served.next(n),
        Command::Prev(n) => served.prev(n),
        Command::First => served.first(),
        Command::Last => served.last(),
        Command::List => return show(Listing::of(&served.store), out),
        Command::Dump => return show(Dump::of(&served.store, &served.table), out),
        Command::Check => Ok(served.check()),
    };
    show(answer, out);
}

// Writes an answer, of one line or of many; or the refusal alone.
fn show<D: Display + Drop>(shown: Result<D, Refusal>, out: &mut Out) {
    match shown {
        Ok(answer) => write!(out, "{answer}"),
        Err(r) => writeln!(out, "err {}", r.number()),
    }
}

fn tell_failed() {
    io::write_all(
        STANDARD_ERROR,
        b"replay: could not read the script to its end\n",
    );
}

// A proved loop has to end, and nothing says that the input does: so it has more turns than any run uses up.
fn serve_all(reader: &mut Reader<'_>, served: &mut Served, out: &mut Out) {
    for _ in 0..u64::MAX {
        match reader.next() {
            Line::Whole(text) => respond(command::read(text), served, out),
            Line::TooLong => respond(Command::Bad, served, out),
            Line::Begun => {}
            Line::Failed => tell_failed(),
            Line::End => break,
        }
    }
}

fn main(rt: HostRuntime) {
    let mut part = io::large_buffer();
    let mut line = [0u8; LONGEST];
    let mut reader = Reader::new(rt.stdin(), &mut part, &mut line);
    let mut served = Served::new();
    let mut out = Out::new();
    serve_all(&mut reader, &mut served, &mut out);
    out.flush();
}
