// The measurements of a frame: bit patterns in hexadecimal, a line each, and lines as the label desk has them.
ghost use Rattle.std.specs.Prelude.{◌<◌};

use crate::numbers::Lines;
use crate::telling;
use labelling::label_line;
use readings::delays::{delay, label_delay};
use readings::gate::Gate;
use readings::voltages::{Reading, label};
use std::io;
use values::refusal::Refusal;

// The pattern of infinity; a greater one, but for its sign, is a NaN's.
const INFINITE: u64 = 9218868437227405312;

const SIGN: u64 = 9223372036854775808;

// The value of a hexadecimal digit, small letters.
// kept: char's to_digit has none for other bytes, and a frame's answer to these stays.
fn digit(byte: u8) -> u64
    ensures { result < 16 }
{
    let low = u64::from(byte % 16);
    if byte < b'a' { low } else { (low + 9) % 16 }
}

// The number that the line from a place of a body on says.
// kept: a pattern is read from its own place, so that a short one before it moves none.
fn pattern(body: &[u8], at: usize) -> u64 {
    let line = Lines::from(body, at).line();
    line.iter().fold(0, |number: u64, byte| {
        number.wrapping_mul(16).wrapping_add(digit(*byte))
    })
}

// The double of a bit pattern; the language makes none of a NaN's pattern, so a NaN stands for each of them.
fn double(bits: u64) -> f64 {
    if INFINITE < bits % SIGN {
        return 0.0 / 0.0;
    }
    f64::from_bits(bits)
}

fn gate_of<T: Drop>(kind: u8, a: T, b: T) -> Gate<T> {
    match kind {
        b'0' => Gate::AtLeast(a),
        b'1' => Gate::AtMost(a),
        _ => Gate::Between(a, b),
    }
}

// Lines: the gate's kind, its limits, the reading's ends.
pub(crate) fn voltage(rt: &impl Print, body: &[u8]) -> io::Result<()> {
    let Some(&kind) = body.first() else {
        return Ok(());
    };
    let gate = gate_of(kind, double(pattern(body, 2)), double(pattern(body, 19)));
    let reading = Reading {
        least: double(pattern(body, 36)),
        greatest: double(pattern(body, 53)),
    };
    telling::labelled(rt, label(reading, gate))
}

fn count(bits: u64) -> u32 {
    (bits % 4294967296) as u32
}

// A signed number by its bits.
fn signed(bits: u64) -> i32 {
    count(bits).cast_signed()
}

// Lines: the gate's kind, its limits, the two counters.
pub(crate) fn ticks(rt: &impl Print, body: &[u8]) -> io::Result<()> {
    let Some(&kind) = body.first() else {
        return Ok(());
    };
    let gate = gate_of(kind, signed(pattern(body, 2)), signed(pattern(body, 11)));
    let d = delay(count(pattern(body, 20)), count(pattern(body, 29)));
    println!(rt; "delay={d}")?;
    telling::labelled(rt, label_delay(d, gate))
}

// Lines of the label desk; a last one without its line feed is in no form.
pub(crate) fn lines(rt: &impl Print, body: &[u8]) -> io::Result<()> {
    for line in body.split_inclusive(|byte| *byte == b'\n') {
        let Some((b'\n', line)) = line.split_last() else {
            return telling::number(rt, Refusal::TextForm.number());
        };
        telling::labelled(rt, label_line(line))?;
    }
    Ok(())
}
