// A voltage reading against a gate, by comparisons only: a NaN compares false with everything.
ghost use Rattle.std.specs.Prelude.{◌≡◌};
ghost use Rattle.readings.specs.Answers.{voltage_label};

use crate::gate::Gate;
use values::refusal::Refusal;
use values::verdict::Verdict;

// The least and the greatest possible value.
#[derive(Clone, Copy, PartialEq, Debug)]
pub struct Reading {
    pub least: f64,
    pub greatest: f64,
}

// The label of a reading: true if the whole of it lies in the gate, false if wholly outside, otherwise unknown.
pub fn label(reading: Reading, gate: Gate<f64>) -> Result<Verdict, Refusal>
    ensures { result ≡ voltage_label reading gate }
{
    gate.label(reading.least, reading.greatest)
}
