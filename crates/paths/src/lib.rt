// Paths: the shortest witnesses of an exists-until question, one after the other, and any list checked.
// What each call promises is named in specs/ and settled for every input.
//
//   question  the tables as they are lent below the calls
//   measure   for each state how many entries a shortest witness from it has
//   faults    whether an entry of a list is at fault
//   descent   down to the smallest next state, and on to the next larger list
//   finding   these put together, for tables that are not refused
//   tests     the tests of 15
#![tactic(auto)]

ghost use Rattle.paths.specs.Questions.{asked};
ghost use Rattle.paths.specs.Answers.{FirstPromise, NextPromise, CheckPromise};

mod descent;
mod faults;
mod finding;
mod measure;
mod question;
mod tests;

use crate::question::Question;
use kripke::tables::read_tables;
use values::refusal::Refusal;

// What follows a witness: the next larger one, now in its place, or no other.
#[derive(Clone, Copy, PartialEq, Eq, Debug)]
pub enum Further {
    Path,
    End,
}

// The smallest shortest witness from start, at the front of the path space: its length, if there is one.
// kept: the tables one by one, as the C interface lends them, and the level a number, since what a public function takes gets no narrower.
pub fn first(
    states: usize,
    transitions: &[u16],
    left: &[u8],
    right: &[u8],
    level: u8,
    start: usize,
    path: &mut [u16],
) -> Result<Option<usize>, Refusal>
    ensures { FirstPromise (asked states transitions.now left.now right.now level) start path.old path.new result }
{
    let t = read_tables(states, transitions, left, right)?;
    if tests::bad_level(level) {
        return Err(Refusal::LevelOrStart);
    }
    if tests::bad_start(states, start) {
        return Err(Refusal::LevelOrStart);
    }
    let question = Question::of(&t, states, transitions, level);
    question.first(start, path)
}

// The next larger shortest witness from the same start, in place of the one that is lent: whether there is one.
// kept: the tables one by one and the level a number, as in `first`.
pub fn next(
    states: usize,
    transitions: &[u16],
    left: &[u8],
    right: &[u8],
    level: u8,
    path: &mut [u16],
) -> Result<Further, Refusal>
    ensures { NextPromise (asked states transitions.now left.now right.now level) path.old path.new result }
{
    let t = read_tables(states, transitions, left, right)?;
    if tests::bad_level(level) {
        return Err(Refusal::LevelOrStart);
    }
    let question = Question::of(&t, states, transitions, level);
    question.next(path)
}

// Whether a list is a witness, shortest or not.
// kept: the tables one by one and the level a number, as in `first`.
pub fn check(
    states: usize,
    transitions: &[u16],
    left: &[u8],
    right: &[u8],
    level: u8,
    path: &[u16],
) -> Result<bool, Refusal>
    ensures { CheckPromise (asked states transitions.now left.now right.now level) path.now result }
{
    let t = read_tables(states, transitions, left, right)?;
    if tests::bad_level(level) {
        return Err(Refusal::LevelOrStart);
    }
    let question = Question::of(&t, states, transitions, level);
    Ok(question.is_witness(path))
}
