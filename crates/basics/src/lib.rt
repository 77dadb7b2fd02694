#![tactic(auto)]

// General definitions and laws: sums, tests, lists, whole numbers, bits. No code.
