// The starred trials as a table and one theorem, in specs/ and proofs/: this crate has no code.
#![tactic(auto)]
