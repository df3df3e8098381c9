// A decimal made the double nearest to it. Up to 15 digits and ten to the 22nd are doubles exactly, so that one multiplication or division
// rounds once.
ghost use Rattle.std.specs.Prelude.{◌≡◌, false, ◌⊎◌, ◌<◌, ◌≤◌, ◌^◌};
ghost use Rattle.std.specs.Float.{inf};
ghost use Rattle.std.specs.Float.Ieee.Exact.{HasValue};
ghost use Rattle.numerals.specs.Wholes.{most_digits};
ghost use Rattle.numerals.specs.Decimals.{most_power};
ghost use Rattle.numerals.specs.Doubles.{nearest, scaled, decimal, magnitude, double};

use crate::decimals::{Mantissa, Power, net_power, read_exponent, read_mantissa};
use crate::texts::{count_before, front};
use crate::wholes::Signed;

const TENS: [f64; 23] = [
    1e0, 1e1, 1e2, 1e3, 1e4, 1e5, 1e6, 1e7, 1e8, 1e9, 1e10, 1e11, 1e12, 1e13, 1e14, 1e15, 1e16,
    1e17, 1e18, 1e19, 1e20, 1e21, 1e22,
];

const MOST_POWER: u64 = 22;

fn ten(k: u64) -> f64
    requires { k ≤ most_power }
    ensures { HasValue result false (10 ^ k) 1 }
{
    let k = k as usize;
    TENS[k]
}

fn exact(negative: bool, n: u64) -> f64
    requires { n < 10 ^ most_digits }
    ensures { HasValue result negative n 1 }
{
    if negative {
        return -(n as f64);
    }
    n as f64
}

fn rounded(negative: bool, n: u64, power: Power) -> f64
    requires { (n < 10 ^ most_digits) × (power.up ≤ most_power) × (power.down ≤ most_power) × ((power.up ≡ 0) ⊎ (power.down ≡ 0)) }
    ensures { result ≡ nearest negative n power.up power.down }
{
    let x = exact(negative, n);
    if power.down == 0 {
        return x * ten(power.up);
    }
    x / ten(power.down)
}

fn scale(negative: bool, mantissa: Mantissa, exponent: Signed) -> Option<f64>
    requires { (mantissa.digits < 10 ^ most_digits) × (mantissa.fraction ≤ most_digits) × (exponent.size < 10 ^ most_digits) }
    ensures { result ≡ scaled negative mantissa exponent }
{
    let power = net_power(mantissa.fraction, exponent);
    if MOST_POWER < power.up {
        return None;
    }
    if MOST_POWER < power.down {
        return None;
    }
    Some(rounded(negative, mantissa.digits, power))
}

#[tactic(auto, using(crate::proofs::Cuts::front_before, crate::proofs::Bounds::mantissa_small, crate::proofs::Bounds::exponent_small), unfolding(crate::specs::Doubles::decimal))]
fn read_decimal(negative: bool, text: &[u8]) -> Option<f64>
    ensures { result ≡ decimal negative text.now }
{
    let mantissa = read_mantissa(front(text, count_before(text, b'e')))?;
    scale(negative, mantissa, read_exponent(text)?)
}

fn infinity(negative: bool) -> f64
    ensures { result ≡ inf negative }
{
    if negative {
        return -1.0 / 0.0;
    }
    1.0 / 0.0
}

#[tactic(auto, using(crate::proofs::Cuts::same_is), unfolding(crate::specs::Doubles::magnitude))]
fn read_magnitude(negative: bool, text: &[u8]) -> Option<f64>
    ensures { result ≡ magnitude negative text.now }
{
    if text == b"inf".as_slice() {
        return Some(infinity(negative));
    }
    read_decimal(negative, text)
}

// The double that a text stands for: nan, inf, -inf or a decimal; none where it is no such text or its power of ten is none of a double.
#[tactic(auto, using(crate::proofs::Cuts::same_is, crate::proofs::Cuts::begins_is), unfolding(crate::specs::Doubles::double))]
pub fn read_double(text: &[u8]) -> Option<f64>
    ensures { result ≡ double text.now }
{
    if text == b"nan".as_slice() {
        return Some(0.0 / 0.0);
    }
    if let Some(magnitude) = text.strip_prefix(b"-") {
        return read_magnitude(true, magnitude);
    }
    read_magnitude(false, text)
}
