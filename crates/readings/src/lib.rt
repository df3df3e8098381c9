// Labels made from measurements. What each call promises is named in specs/ and settled for every input.
//
//   gate       limits of voltages or delays, and what they make of a measurement
//   voltages   a reading with a least and a greatest value, against a gate
//   delays     two tick counters, how far apart they are, and against a gate
#![tactic(auto)]

pub mod delays;
pub mod gate;
pub mod voltages;
