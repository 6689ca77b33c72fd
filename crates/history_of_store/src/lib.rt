#![tactic(auto)]

// Demand 3 of the store: definitions in specs/, the theorem in proofs/. No code.
