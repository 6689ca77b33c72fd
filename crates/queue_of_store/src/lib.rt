#![tactic(auto)]

// When the words of a store hold a queue of document 01: definitions in specs/, theorems in proofs/. No code.
