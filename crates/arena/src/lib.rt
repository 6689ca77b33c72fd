// The store of numbers that a caller lends: its layout, its header, keys in stored form, laying out, slots and entries.
// Everything above reads and writes a store through `store` alone, whose methods call `words` (docs/STORE.md).
// From the Rust: arena/base_arena.rs and arena/impl_arena_trait.rs.
#![tactic(auto)]

pub mod entries;
pub mod header;
pub mod keys;
pub mod laying;
pub mod slots;
pub mod store;
pub mod words;
