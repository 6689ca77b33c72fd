// Mending ranks after a removal: the climb from the emptied place, and its two rotations.
// Each function equals its model on any words; where a link or a rank is impossible on a sound store, the answer says so.
// From the Rust: the second loop of ord/remove.rs.
#![tactic(auto)]

pub mod climbing;
pub mod turns;
