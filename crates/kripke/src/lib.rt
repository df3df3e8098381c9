// States and transitions: their refusal, and where each state's transitions begin; with two rows beside them, the tables of a question.
// The meaning of until is in specs/.
#![tactic(auto)]

pub mod graph;
pub mod lent;
pub mod rows;
pub mod tables;
