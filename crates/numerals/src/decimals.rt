// A decimal without its sign: the number that its digits say, how many stand behind the point, and its exponent.
ghost use Rattle.std.specs.Prelude.{◌≡◌, ◌+◌, ◌≤◌, ◌^◌, ◌<◌, length};
ghost use Rattle.numerals.specs.Wholes.{most_digits};
ghost use Rattle.numerals.specs.Decimals.{pointed, mantissa, exponent, upward, downward};

use crate::texts::split_once;
use crate::wholes::{MOST_DIGITS, Signed, digits_from, read_signed, read_whole};

// The number that all digits say, and how many of them stand behind the point.
#[derive(Clone, Copy, PartialEq, Eq, Debug)]
pub(crate) struct Mantissa {
    pub(crate) digits: u64,
    pub(crate) fraction: u64,
}

// A power of ten, ten to the one over ten to the other.
#[derive(Clone, Copy, PartialEq, Eq, Debug)]
pub(crate) struct Power {
    pub(crate) up: u64,
    pub(crate) down: u64,
}

// The digits before a point and those behind it, at least one and not too many in all.
#[tactic(auto, using(crate::proofs::Bounds::room_behind), unfolding(crate::specs::Decimals::pointed))]
fn read_pointed(text: &[u8], fraction: &[u8]) -> Option<Mantissa>
    requires { (0 < length fraction.now) × (length text.now + length fraction.now ≤ most_digits) }
    ensures { result ≡ pointed text.now fraction.now }
{
    let digits = digits_from(read_whole(text)?, fraction)?;
    Some(Mantissa {
        digits,
        fraction: fraction.len() as u64,
    })
}

#[tactic(auto, unfolding(crate::specs::Decimals::mantissa))]
pub(crate) fn read_mantissa(text: &[u8]) -> Option<Mantissa>
    ensures { result ≡ mantissa text.now }
{
    let Some((whole, fraction)) = split_once(text, b'.') else {
        return read_whole(text).map(|digits| Mantissa {
            digits,
            fraction: 0,
        });
    };
    if fraction.len() == 0 {
        return None;
    }
    if MOST_DIGITS < whole.len() + fraction.len() {
        return None;
    }
    read_pointed(whole, fraction)
}

// What stands behind the e, 0 where there is none.
#[tactic(auto, unfolding(crate::specs::Decimals::exponent))]
pub(crate) fn read_exponent(text: &[u8]) -> Option<Signed>
    ensures { result ≡ exponent text.now }
{
    match split_once(text, b'e') {
        Some((_, behind)) => read_signed(behind),
        None => Some(Signed {
            negative: false,
            size: 0,
        }),
    }
}

// The exponent less the digits behind the point.
pub(crate) fn net_power(fraction: u64, exponent: Signed) -> Power
    requires { (fraction ≤ most_digits) × (exponent.size < 10 ^ most_digits) }
    ensures { (result.up ≡ upward fraction exponent) × (result.down ≡ downward fraction exponent) }
{
    if exponent.negative {
        return Power {
            up: 0,
            down: fraction + exponent.size,
        };
    }
    Power {
        up: exponent.size.saturating_sub(fraction),
        down: fraction.saturating_sub(exponent.size),
    }
}
