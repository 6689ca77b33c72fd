#![tactic(auto)]

// No code: this crate is the theory of the ranked tree, in specs/ and proofs/.
