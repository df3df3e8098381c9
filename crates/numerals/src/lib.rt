// Numbers as people write them, each the whole of a text: whole numbers, and decimals made the nearest double. What each call promises is named
// in specs/ and settled for every input.
//
//   texts      a text cut at a byte
//   wholes     whole numbers, without and with a sign
//   decimals   a decimal's digits and its power of ten
//   doubles    the double nearest to a decimal, and the infinities and NaN
#![tactic(auto)]

mod decimals;
pub mod doubles;
pub mod texts;
pub mod wholes;
