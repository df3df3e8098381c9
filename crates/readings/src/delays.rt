// The delay between two free-running 32-bit tick counters, and its label. Differences are taken of signed numbers alone.
ghost use Rattle.std.specs.Prelude.{◌≡◌};
ghost use Rattle.readings.specs.Answers.{delay_label};
ghost use Rattle.readings.specs.Delays.{Delay};

use crate::gate::Gate;
use values::refusal::Refusal;
use values::verdict::Verdict;

// How far a counter goes before it begins again.
const TURN: i64 = 4294967296;

pub const LEAST_DELAY: i64 = -2147483648;

pub const GREATEST_DELAY: i64 = 2147483647;

// Later minus earlier; below zero where the later count is behind.
// kept: differences are taken of signed numbers alone, a rule of the project; `wrapping_sub` takes one of unsigned numbers.
pub fn delay(later: u32, earlier: u32) -> i32
    ensures { Delay later earlier result }
{
    let apart = later as i64 - earlier as i64;
    if apart < LEAST_DELAY {
        return (apart + TURN) as i32;
    }
    if GREATEST_DELAY < apart {
        return (apart - TURN) as i32;
    }
    apart as i32
}

// The label of a delay, which is its own least and greatest value: true if it lies in the gate, otherwise false.
pub fn label_delay(delay: i32, gate: Gate<i32>) -> Result<Verdict, Refusal>
    ensures { result ≡ delay_label delay gate }
{
    gate.label(delay, delay)
}
