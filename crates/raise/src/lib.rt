// The ranks after a new entry: the climb, and the restructure that may end it. Crate `insert` calls ranks::rebalance.
// Each function equals its model in specs/ on any words. From the Rust: rebalance_inserted of ord/insert.rs.
#![tactic(auto)]

pub mod ranks;
pub mod turns;
