// What the programs write: collected in a buffer (`out`), or at once on standard output (`console`, by `say!` and `say_line!`).
// Every function is safe for any arguments; no contract speaks of what is written, so each program's output is compared.
#![tactic(auto)]

pub mod console;
pub mod out;
pub mod phrases;
