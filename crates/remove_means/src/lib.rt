#![tactic(auto)]

// On a store that holds a queue of document 01, removal and reading do what document 01 says: theorems in proofs/. No code.
