// Whole numbers without leading zeros, of at most as many digits as a double holds exactly.
ghost use Rattle.std.specs.Prelude.{◌≡◌, ◌+◌, ◌*◌, ◌^◌, ◌≤◌, length};
ghost use Rattle.numerals.specs.Wholes.{most_digits, digit_of, digits_from, whole, signed};

pub(crate) const MOST_DIGITS: usize = 15;

// Whether it is below zero or written so, and its size.
// kept: the sign beside the size, since -0 is told from 0, which an i64 doesn't.
#[derive(Clone, Copy, PartialEq, Eq, Debug)]
pub struct Signed {
    pub negative: bool,
    pub size: u64,
}

// The value of a digit.
#[tactic(auto, unfolding(crate::specs::Wholes::digit_of))]
fn digit(byte: u8) -> Option<u64>
    ensures { result ≡ digit_of byte }
{
    if byte.is_ascii_digit() {
        return Some((byte - b'0') as u64);
    }
    None
}

// What digits say behind a number.
pub(crate) fn digits_from(first: u64, text: &[u8]) -> Option<u64>
    requires { (first + 1) * 10 ^ length text.now ≤ 10 ^ most_digits }
    ensures { result ≡ digits_from first text.now }
{
    let mut n = first;
    for byte in text {
        n = n * 10 + digit(*byte)?;
    }
    Some(n)
}

// A whole number; none of another text, of one with a leading zero, or of more digits than a double holds exactly.
#[tactic(auto, unfolding(crate::specs::Wholes::whole, crate::specs::Wholes::plain))]
pub fn read_whole(text: &[u8]) -> Option<u64>
    ensures { result ≡ whole text.now }
{
    let n = text.len();
    if n == 0 {
        return None;
    }
    if MOST_DIGITS < n {
        return None;
    }
    if 1 < n {
        if text[0] == b'0' {
            return None;
        }
    }
    digits_from(0, text)
}

// A whole number with an optional - before it; none of any other text.
#[tactic(auto, using(crate::proofs::Cuts::begins_is), unfolding(crate::specs::Wholes::signed))]
pub fn read_signed(text: &[u8]) -> Option<Signed>
    ensures { result ≡ signed text.now }
{
    if let Some(digits) = text.strip_prefix(b"-") {
        return read_whole(digits).map(|size| Signed {
            negative: true,
            size,
        });
    }
    read_whole(text).map(|size| Signed {
        negative: false,
        size,
    })
}
