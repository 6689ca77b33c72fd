// A tower clock's calls on the queue, each told in one line of words: what was asked for and what the queue answered.
// A strike is an entry: its key is when it is due, its value the number of strokes. Each call is safe on any store.
#![tactic(auto)]

pub mod checking;
pub mod clock;
pub mod planning;
pub mod striking;
