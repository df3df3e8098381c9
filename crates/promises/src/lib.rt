#![tactic(auto)]

// The demands as theorems: specs/ states each sentence, proofs/ proves it under the same name. No code.
