#![tactic(auto)]

// What each public entry answers, defined in specs/ from what is handed in; the worked examples in proofs/. No code.
