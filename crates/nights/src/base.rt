// The model and the path question that the cases change, case 7, as numbers: a row of 32 for each letter.
//
//   S states   A atoms   L labels   I initial   T transitions   N nodes   V room for verdicts
//   G level    B start   P left     Q right     R room for a path         X list
//   K a node whose part is printed
//   D how a picture ends: 0 where it falls, and otherwise 1 more than the place that it leads back to
//
// A list's row has its length, and then its entries. A code writes numbers from a place of a row on, each with a comma
// behind it: "S=0," no state, "L=7," a list of seven labels, "T9=4," the ninth number of the transitions.
// "+" is the first number beyond the limit of states, atoms, transitions or nodes, "*" the first beyond that of kinds, "@" the first that is
// no atom's.
ghost use Rattle.std.specs.Prelude.{◌<◌};

use crate::spaces::{PATTERN, PATTERN_NUMBER, front};
use std::array;
use values::limits::{
    GREATEST_KIND, MOST_ATOMS, MOST_NODE_NUMBERS, MOST_STATES, MOST_TRANSITION_NUMBERS,
};

// The rows, and behind them as many as the longest list has.
const NUMBERS: usize = 27 * 32 + MOST_TRANSITION_NUMBERS + 2;

// The first number that is too large where a row begins.
// kept: rows by number, A's 1, N's 14, S's 19: any byte writes to some row, and an enum of rows would refuse some.
fn beyond(row: u16) -> u16 {
    match row / 32 {
        1 => MOST_ATOMS as u16 + 1,
        14 => MOST_NODE_NUMBERS as u16 + 3,
        19 => MOST_STATES as u16 + 1,
        _ => MOST_TRANSITION_NUMBERS as u16 + 2,
    }
}

// What a code has been read to: the row, the place to write to, the number so far.
#[derive(Clone, Copy)]
struct Cursor {
    row: u16,
    place: u16,
    value: u16,
}

impl Cursor {
    fn after(self, byte: u8) -> Cursor {
        match byte {
            b'=' => Cursor {
                place: self.row.wrapping_add(self.value),
                value: 0,
                ..self
            },
            b',' => Cursor {
                place: self.place.wrapping_add(1),
                value: 0,
                ..self
            },
            b'+' => Cursor {
                value: beyond(self.row),
                ..self
            },
            b'*' => Cursor {
                value: GREATEST_KIND + 1,
                ..self
            },
            b'@' => Cursor {
                value: MOST_ATOMS as u16,
                ..self
            },
            b'0'..=b'9' => Cursor {
                value: self
                    .value
                    .wrapping_mul(10)
                    .wrapping_add(u16::from(byte % 16)),
                ..self
            },
            _ => Cursor {
                row: u16::from(byte % 32) * 32,
                place: 0,
                value: 0,
            },
        }
    }
}

#[derive(Drop)]
pub(crate) struct Rows {
    numbers: [u16; NUMBERS],
}

// Where a letter's row begins.
// kept: rows go by the letters that codes write, any byte of which is some row's; an enum of rows would refuse some.
fn start(letter: u8) -> usize
    ensures { result < 1024 }
{
    usize::from(letter % 32) * 32
}

impl Rows {
    // The base with the changes of two codes.
    pub(crate) fn changed(model: &[u8], code: &[u8]) -> Rows {
        let mut rows = Rows {
            numbers: [PATTERN_NUMBER; NUMBERS],
        };
        rows.write(
            b"S=4,A=2,L=8,2,0,2,0,2,0,0,2,I=4,1,0,0,0,T=10,0,1,0,2,1,3,2,3,3,3,N=9,1,0,0,1,1,0,5,0,1,V=12,\
              G=2,B=0,P=4,2,2,2,0,Q=4,0,0,0,2,R=4,X=3,0,1,3,D=0,",
        );
        rows.write(model);
        rows.write(code);
        rows
    }

    // Writes what a code says, a number at each comma.
    fn write(&mut self, code: &[u8]) {
        let mut cursor = Cursor {
            row: 0,
            place: 0,
            value: 0,
        };
        for &byte in code {
            if byte == b',' {
                self.put(cursor);
            }
            cursor = cursor.after(byte);
        }
    }

    fn put(&mut self, cursor: Cursor) {
        if let Some(number) = self.numbers.get_mut(usize::from(cursor.place)) {
            *number = cursor.value;
        }
    }

    // The first number of a letter's row.
    pub(crate) fn one(&self, letter: u8) -> usize {
        usize::from(self.numbers[start(letter)])
    }

    // The list in a letter's row.
    pub(crate) fn entries(&self, letter: u8) -> &[u16] {
        front(&self.numbers[start(letter) + 1..], self.one(letter))
    }

    // The list in a letter's row as bytes, at the front.
    pub(crate) fn bytes(&self, letter: u8) -> [u8; 32] {
        let found = self.entries(letter);
        array::from_fn(|i| found.get(i).map_or(PATTERN, |number| (*number % 256) as u8))
    }
}
