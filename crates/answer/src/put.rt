// Bytes put into a buffer from a place on. Each function says the place behind what it put.
ghost use Rattle.std.specs.Prelude.{◌≡◌, [], ◌∷◌, ℕ, ◌+◌, ◌<◌, ◌≤◌, length, map};
ghost use Rattle.lists.specs.Entries.{at};
ghost use Rattle.values.specs.Values.{top};
ghost use Rattle.values.specs.Limits.{most_states};
ghost use Rattle.values.specs.Signs.{digits, decimal, numbers_print};
ghost use Rattle.answer.specs.Lines.{letter_of};
ghost use Rattle.lists.specs.Rows.{Put};

use values::verdict::Verdict;

// The letter of a verdict.
#[tactic(auto, unfolding(crate::specs::Lines::letter_of))]
pub(crate) fn letter(verdict: Verdict) -> u8
    requires { verdict.0 ≤ top }
    ensures { result ≡ letter_of verdict.0 }
{
    match verdict {
        Verdict::FALSE => b'F',
        Verdict::UNKNOWN => b'U',
        _ => b'T',
    }
}

// How many digits a number has.
pub(crate) fn decimal_size(number: u16) -> usize
    ensures { result ≡ length (decimal number) }
{
    match number {
        0..=9 => 1,
        10..=99 => 2,
        100..=999 => 3,
        1000..=9999 => 4,
        _ => 5,
    }
}

// kept: the buffer and the place stay two parameters; a struct of both would be lent on to each function here, and promise of both what these do.
pub(crate) fn put_byte(byte: u8, buffer: &mut [u8], to: usize) -> usize
    requires { to < length buffer.old }
    ensures { Put buffer.old buffer.new to result (byte ∷ []) }
{
    buffer[to] = byte;
    to + 1
}

pub(crate) fn put_bytes(bytes: &[u8], buffer: &mut [u8], to: usize) -> usize
    requires { to + length bytes.now ≤ length buffer.old }
    ensures { Put buffer.old buffer.new to result bytes.now }
{
    let end = to + bytes.len();
    buffer[to..end].copy_from_slice(bytes);
    end
}

// A letter for each value.
// kept: one index for both places: a zip with iter_mut leaves the loop's invariant open.
pub(crate) fn put_letters(values: &[u8], buffer: &mut [u8], to: usize) -> usize
    requires { (to + length values.now ≤ length buffer.old) × ((i : ℕ) → i < length values.now → at values.now i ≤ top) }
    ensures { Put buffer.old buffer.new to result (map letter_of values.now) }
{
    let n = values.len();
    for i in 0..n {
        buffer[to + i] = letter(Verdict(values[i]));
    }
    to + n
}

fn put_digit(digit: u16, buffer: &mut [u8], to: usize) -> usize
    requires { (digit < 10) × (to < length buffer.old) }
    ensures { Put buffer.old buffer.new to result (at digits digit ∷ []) }
{
    put_byte(b'0' + digit as u8, buffer, to)
}

// The digits of a number that has at most three.
// kept: by hundreds and not digit by digit, as formula has it: an edit counts the hundreds wrong, and would have no place.
fn put_short(number: u16, buffer: &mut [u8], to: usize) -> usize
    requires { (number < 1000) × (to + length (decimal number) ≤ length buffer.old) }
    ensures { Put buffer.old buffer.new to result (decimal number) }
{
    if number < 10 {
        return put_digit(number, buffer, to);
    }
    if number < 100 {
        let a = put_digit(number / 10, buffer, to);
        return put_digit(number % 10, buffer, a);
    }
    let a = put_digit(number / 100, buffer, to);
    let b = put_digit(number / 10 % 10, buffer, a);
    put_digit(number % 10, buffer, b)
}

// The digits of a number: the hundreds, and two more.
// kept: Display writes to a fmt::Write, which a lent slice is none; a type over one, and a proof that std's digits are those of Signs, is no plainer.
pub(crate) fn put_decimal(number: u16, buffer: &mut [u8], to: usize) -> usize
    requires { to + length (decimal number) ≤ length buffer.old }
    ensures { Put buffer.old buffer.new to result (decimal number) }
{
    if number < 1000 {
        return put_short(number, buffer, to);
    }
    let a = put_short(number / 100, buffer, to);
    let b = put_digit(number / 10 % 10, buffer, a);
    put_digit(number % 10, buffer, b)
}

// How many bytes the entries of a path take, each with what stands behind it.
pub(crate) fn entries_size(path: &[u16]) -> usize
    requires { length path.now ≤ most_states }
    ensures { result ≡ length (numbers_print path.now) }
{
    let mut size: usize = 0;
    for &state in path {
        size = size + decimal_size(state) + 1;
    }
    size
}

// The entries of a path, up to the line's end.
pub(crate) fn put_entries(path: &[u16], buffer: &mut [u8], to: usize) -> usize
    requires { to + length (numbers_print path.now) ≤ length buffer.old }
    ensures { Put buffer.old buffer.new to result (numbers_print path.now) }
{
    let n = path.len();
    let mut at = to;
    for i in 0..n {
        let behind = put_decimal(path[i], buffer, at);
        at = put_byte(values::signs::stop_before(n - (i + 1)), buffer, behind);
    }
    at
}
