#![tactic(auto)]

// Demand 3: what any list of calls leaves, read off the calls and their answers alone. Definitions in specs/, theorems in proofs/. No code.
