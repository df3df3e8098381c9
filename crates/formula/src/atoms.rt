// An atom's number.
ghost use Rattle.std.specs.Prelude.{◌≡◌, false, ◌≤◌, length, MatchOption};
ghost use Rattle.values.specs.Limits.{most_formula};
ghost use Rattle.formula.specs.Inside.{is_digit, IsDigit, EndedAt, AtomAt};

use values::limits::MOST_ATOMS;

// The number, and how many bytes it takes.
#[derive(Clone, Copy)]
pub(crate) struct Atom {
    pub(crate) number: usize,
    pub(crate) size: usize,
}

// The value of a byte that is a digit.
// kept: the twin of numerals' digit: shared, it would be a public function of a crate below both, with must-fail edits of its own, for three lines.
fn digit_of(byte: u8) -> Option<usize>
    ensures { MatchOption result (is_digit byte ≡ false) (λ d. IsDigit byte d) }
{
    if !byte.is_ascii_digit() {
        return None;
    }
    Some((byte - b'0') as usize)
}

// A number that has ended.
fn ended(number: usize, size: usize) -> Option<Atom>
    ensures { EndedAt number size result }
{
    if number < MOST_ATOMS {
        Some(Atom { number, size })
    } else {
        None
    }
}

// Decimal, below the most atoms, no leading zeros.
pub(crate) fn atom_at(rest: &[u8]) -> Option<Atom>
    requires { length rest.now ≤ most_formula }
    ensures { AtomAt rest.now result }
{
    if rest.is_empty() {
        return None;
    }
    let mut number = digit_of(rest[0])?;
    for i in 1..rest.len() {
        let Some(digit) = digit_of(rest[i]) else {
            return ended(number, i);
        };
        if number == 0 {
            return None;
        }
        if MOST_ATOMS <= number {
            return None;
        }
        number = number * 10 + digit;
    }
    ended(number, rest.len())
}
