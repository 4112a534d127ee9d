// Definitions and theorems alone, in specs/ and proofs/: this crate has no code.
#![tactic(auto)]
