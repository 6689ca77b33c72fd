#![tactic(auto)]

// Insertion on a store that holds a queue does what document 01 says: theorems in proofs/. No code.
