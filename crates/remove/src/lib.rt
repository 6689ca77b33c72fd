// Taking a strike away: the entry's place in the tree is filled or closed, the ranks are mended, the chain closes, the slot is freed.
// Each function equals its model on any words; where a link or a rank is impossible on a sound store, the answer is NotSound.
// From the Rust: ord/remove.rs.
#![tactic(auto)]

pub mod lifting;
pub mod reading;
pub mod removing;
pub mod taking;
