// Placing a strike: where a new entry goes by each kind of insertion, the look-ahead, and the insertion itself.
// Each function equals its model in specs/ on any words. From the Rust: ord/insert.rs.
#![tactic(auto)]

pub mod ahead;
pub mod kinds;
pub mod place;
