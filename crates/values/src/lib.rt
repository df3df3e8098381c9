// What every table, row and text stands on. What each call promises is named in specs/ and settled for every input.
//
//   limits    the most states, atoms, transitions, nodes and text bytes, and the sizes that follow
//   refusal   why a call says no, each cause with its number and its words
//   verdict   false, unknown, true, with not, and, or
//   rows      a row of verdicts as it is stored, written and read
//   signs     what stands between the numbers of a line
#![tactic(auto)]

pub mod limits;
pub mod refusal;
pub mod rows;
pub mod signs;
pub mod verdict;
