// The public calls of the queue, on a store of numbers that the caller lends. No call asks anything of its caller: each tests the
// header first and answers 5 where it fails, else the words go on as a Store or a View of that capacity. Each call is equal to its
// model in specs/ on any words at all.
// From the Rust: ord/simple_ord_arena.rs.
#![tactic(auto)]

pub mod cursor;
pub mod looking;
pub mod placing;
pub mod taking;
