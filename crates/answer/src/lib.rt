// The lines of an answer, each written to the front of a lent buffer.
//
//   put   bytes, letters and digits, one behind the other
//
// specs/Lines says what a line is, specs/Answers what each call promises.
#![tactic(auto)]

use values::limits::MOST_STATES;
use values::rows::read_row;
use values::verdict::Verdict;

mod put;

ghost use Rattle.std.specs.Prelude.{◌≡◌};
ghost use Rattle.answer.specs.Answers.{longest_lines, number_due, row_due, model_due, path_due, LineWritten};

use put::{
    decimal_size, entries_size, letter, put_byte, put_bytes, put_decimal, put_entries, put_letters,
};

// A buffer of so many bytes has room for the line of every path: path= takes five, a state five digits at the most and a comma or the line feed.
pub const MOST_PATH_LINE: usize = 6 * MOST_STATES + 5;

// And for every other line. The longest is that of a row: row= and the line feed take five, a state one letter.
pub const MOST_LINE: usize = MOST_STATES + 5;

// The bytes of the longest line of a path, and of the longest other line.
#[derive(Clone, Copy)]
pub struct Lengths {
    pub line: usize,
    pub path: usize,
}

// The two constants, which are those of specs/Lines.
pub fn longest() -> Lengths
    ensures { result ≡ longest_lines }
{
    Lengths {
        line: MOST_LINE,
        path: MOST_PATH_LINE,
    }
}

// Why no line was written. The buffer stays as it was.
#[derive(Clone, Copy, PartialEq, Eq, Debug)]
pub enum Unwritten {
    // The buffer is too short for the line.
    NoRoom,
    // What was given is no row, no verdict or no path: it has no line.
    NoLine,
}

// Each writer answers how many bytes stand at the front of the buffer; the rest of it stays.

// answer=N
// kept: a number and no Refusal: 0 is written too, and what a public function takes gets no narrower.
pub fn write_number(number: u8, buffer: &mut [u8]) -> Result<usize, Unwritten>
    ensures { LineWritten (number_due number) buffer.old buffer.new result }
{
    let size = decimal_size(number as u16) + 8;
    if buffer.len() < size {
        return Err(Unwritten::NoRoom);
    }
    let a = put_bytes(b"answer=", buffer, 0);
    let b = put_decimal(number as u16, buffer, a);
    let end = put_byte(b'\n', buffer, b);
    Ok(end)
}

// row= and a letter a state
pub fn write_row(states: usize, stored: &[u8], buffer: &mut [u8]) -> Result<usize, Unwritten>
    ensures { LineWritten (row_due states stored.now) buffer.old buffer.new result }
{
    let Some(row) = read_row(states, stored) else {
        return Err(Unwritten::NoLine);
    };
    if buffer.len() < states + 5 {
        return Err(Unwritten::NoRoom);
    }
    let a = put_bytes(b"row=", buffer, 0);
    let b = put_letters(&row.values[..states], buffer, a);
    let end = put_byte(b'\n', buffer, b);
    Ok(end)
}

// model= and a letter
pub fn write_model(verdict: Verdict, buffer: &mut [u8]) -> Result<usize, Unwritten>
    ensures { LineWritten (model_due verdict.0) buffer.old buffer.new result }
{
    let Some(known) = Verdict::of(verdict.0) else {
        return Err(Unwritten::NoLine);
    };
    if buffer.len() < 8 {
        return Err(Unwritten::NoRoom);
    }
    let a = put_bytes(b"model=", buffer, 0);
    let b = put_byte(letter(known), buffer, a);
    let end = put_byte(b'\n', buffer, b);
    Ok(end)
}

// path= and the states, commas between them
pub fn write_path(path: &[u16], buffer: &mut [u8]) -> Result<usize, Unwritten>
    ensures { LineWritten (path_due path.now) buffer.old buffer.new result }
{
    let n = path.len();
    if n == 0 {
        return Err(Unwritten::NoLine);
    }
    if MOST_STATES < n {
        return Err(Unwritten::NoLine);
    }
    let size = entries_size(path) + 5;
    if buffer.len() < size {
        return Err(Unwritten::NoRoom);
    }
    let a = put_bytes(b"path=", buffer, 0);
    let end = put_entries(path, buffer, a);
    Ok(end)
}
