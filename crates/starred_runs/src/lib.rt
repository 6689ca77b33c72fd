#![tactic(auto)]

// The starred runs of document 01, one table over queue and due times: definitions in specs/, theorems in proofs/. No code.
