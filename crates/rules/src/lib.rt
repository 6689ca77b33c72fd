#![tactic(auto)]

// The queue of document 01, without a store: definitions in specs/, theorems in proofs/. No code.
