#![tactic(auto)]

// The tree cost game: definitions in specs/, theorems in proofs/. No code.
