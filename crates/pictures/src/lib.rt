// Pictures: why A(left U right) is false at a state, handed out as a list of states, and any such list checked.
// What each call promises is named in specs/ and settled for every input, but for the choice among pictures.
//
//   question   the tables as they are lent below the call
//   marks      the states where A(left U right) is false, and the way on from each
//   drawing    the walk along these ways, for tables that are not refused
//   checking   whether a list and its ending are a picture
#![tactic(auto)]

ghost use Rattle.pictures.specs.Pictures.{asked};
ghost use Rattle.pictures.specs.Answers.{PicturePromise, CheckPromise};

use checking::Denied;
use kripke::lent::Graph;
use kripke::rows::opposite_row;
use kripke::tables::read_tables;
use question::Question;
use std::fmt;
use values::limits::MOST_STATES;
use values::refusal::Refusal;
use values::rows::row_size;

mod checking;
mod drawing;
mod marks;
mod question;

// How a picture ends: the left part is false at its last state, or that state has a transition to this place of the list.
#[derive(Clone, Copy, PartialEq, Eq, Debug)]
pub enum Ending {
    Falls,
    Back(usize),
}

impl fmt::Display for Ending {
    fn fmt<W: fmt::Write>(&self, f: &mut fmt::Formatter<W>) -> fmt::Result {
        match self {
            Ending::Falls => f.write_str("falls"),
            Ending::Back(place) => write!(f, "back={place}"),
        }
    }
}

// A picture with the start first, at the front of the path space: how many entries it has and how it ends; none where the verdict is not false.
// kept: the tables one by one, as callers lend them, which may not change; within, they are one struct.
pub fn picture(
    states: usize,
    transitions: &[u16],
    left: &[u8],
    right: &[u8],
    start: usize,
    path: &mut [u16],
) -> Result<Option<(usize, Ending)>, Refusal>
    ensures { PicturePromise (asked states transitions.now left.now right.now) start path.old path.new result }
{
    let t = read_tables(states, transitions, left, right)?;
    if states <= start {
        return Err(Refusal::LevelOrStart);
    }
    let graph = Graph {
        states,
        transitions,
        begins: &t.begins,
    };
    let question = Question {
        graph,
        left: &t.left,
        right: &t.right,
    };
    question.draw(start, path)
}

// Whether a list and its ending are a picture, its first entry being the state that is asked about.
// kept: the tables one by one, as in `picture`.
pub fn check(
    states: usize,
    transitions: &[u16],
    left: &[u8],
    right: &[u8],
    path: &[u16],
    ending: Ending,
) -> Result<bool, Refusal>
    ensures { CheckPromise (asked states transitions.now left.now right.now) path.now ending result }
{
    let t = read_tables(states, transitions, left, right)?;
    let mut row = [0u8; MOST_STATES];
    opposite_row(states, right, &mut row);
    let denied = Denied {
        states,
        transitions,
        row: &row[..row_size(states)],
    };
    Ok(denied.ends(&t.left, path, ending))
}
