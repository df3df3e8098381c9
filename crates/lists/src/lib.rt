#![tactic(auto)]

// Definitions and laws on lists that several crates lean on: specs/ and proofs/. No code.
