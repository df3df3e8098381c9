#![tactic(auto)]

// The text form of a model and its print: specs/Readers and specs/Form say what the form is, specs/Print how a model is printed and
// specs/Longest how long that may be; proofs/ that the form reads the prints, and nothing else. No code.
