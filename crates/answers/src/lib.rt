// The answers of a script's lines: plain data, and how it is written.
// Every function is safe for any arguments; what is written is held against the Rust side by paired runs.
#![tactic(auto)]

pub mod answer;
