// A row of verdicts as it is stored. Nothing else knows how.
ghost use Rattle.std.specs.Prelude.{◌≡◌, ◌<◌, ◌≤◌, length};
ghost use Rattle.lists.specs.Rows.{Filled};
ghost use Rattle.values.specs.Values.{top};
ghost use Rattle.values.specs.Rows.{some_above, row_size, value_at, bad_row};
ghost use Rattle.values.specs.Answers.{RowRead, RowStored};

use crate::limits::MOST_STATES;
use crate::verdict::Verdict;

// A stored row, read: its values, the rest 0.
// kept: an array for the most states, of which a caller knows how many count, since memory is fixed, a rule of the project.
#[derive(Clone, Copy)]
pub struct Row {
    pub values: [u8; MOST_STATES],
}

// How many bytes a row of so many states takes.
pub fn row_size(states: usize) -> usize
    ensures { result ≡ row_size states }
{
    states
}

// Whether an entry is above a value.
pub fn some_above(list: &[u8], value: u8) -> bool
    ensures { result ≡ some_above list.now value }
{
    list.iter().any(|&x| value < x)
}

// Whether a byte is the number of no verdict.
pub fn some_no_verdict(list: &[u8]) -> bool
    ensures { result ≡ some_above list.now top }
{
    for &number in list {
        let Some(_value) = Verdict::of(number) else {
            return true;
        };
    }
    false
}

// Whether what is lent is no row of so many states.
fn bad_row(states: usize, stored: &[u8]) -> bool
    ensures { result ≡ bad_row states stored.now }
{
    if stored.len() != row_size(states) {
        return true;
    }
    some_no_verdict(stored)
}

// The value at a state.
fn value_at(stored: &[u8], s: usize) -> u8
    requires { s < length stored.now }
    ensures { result ≡ value_at stored.now s }
{
    stored[s]
}

// The values of a row, at the front of a space.
// kept: value by value: where a row has a state's value value_at alone says, and a copy of slices would say it again.
fn unpack(states: usize, stored: &[u8], values: &mut [u8])
    requires { (states ≤ length values.old) × (states ≤ length stored.now) }
    ensures { Filled (value_at stored.now) states values.old values.new }
{
    for s in 0..states {
        values[s] = value_at(stored, s);
    }
}

// A stored row of so many states, if it is one.
pub fn read_row(states: usize, stored: &[u8]) -> Option<Row>
    ensures { RowRead states stored.now result }
{
    if MOST_STATES < states {
        return None;
    }
    if bad_row(states, stored) {
        return None;
    }
    let mut values = [0u8; MOST_STATES];
    unpack(states, stored, &mut values);
    Some(Row { values })
}

// Copies a finished row to the front of a space, or says that it has no room and leaves it.
// kept: the answer is a yes or no, and nothing stands beside it.
pub fn store_row(values: &[u8], space: &mut [u8]) -> bool
    ensures { RowStored values.now space.old space.new result }
{
    let n = values.len();
    if space.len() < n {
        return false;
    }
    // entry by entry, so that an archive for C needs no memmove
    for i in 0..n {
        space[i] = values[i];
    }
    true
}
