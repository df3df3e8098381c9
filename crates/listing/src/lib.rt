// A path question's answer, line by line: path after path, and how it ends.
//
//   calls   First and Next, made on the front of the path space
//   lines   the line of what they tell
//
// specs/Answers says what `write_line` promises.
#![tactic(auto)]

use answer::Unwritten;
use values::refusal::Refusal;

mod calls;
mod lines;

ghost use Rattle.paths.specs.Questions.{asked};
ghost use Rattle.listing.specs.Answers.{LineListed};

use calls::ask;
use lines::write_told;

// The call that is made for a line: First from a start, lent so many entries of the path space, or Next, lent a path of so many.
// They are the first of the space; where it has fewer, all of it is lent.
#[derive(Clone, Copy)]
pub enum Call {
    First { start: usize, room: usize },
    Next(usize),
}

// What a line tells. Only behind a path does the listing go on, with Next.
#[derive(Clone, Copy, PartialEq, Eq, Debug)]
pub enum Told {
    // A path of so many entries stands at the front of the path space.
    Path(usize),
    // There is no path.
    None,
    // There are no more.
    End,
    // There are more, and no more are to be listed.
    More,
}

// What is told, or the refusal, and how many bytes its line has, or why none was written.
#[derive(Clone, Copy)]
pub struct Listed {
    pub told: Result<Told, Refusal>,
    pub line: Result<usize, Unwritten>,
}

// One line of a path question's answer, at the front of the buffer: what the call tells, where so many paths are still to be listed at the most.
// kept: the tables one by one, as callers lend them, which may not change.
pub fn write_line(
    states: usize,
    transitions: &[u16],
    left: &[u8],
    right: &[u8],
    level: u8,
    most: usize,
    call: Call,
    space: &mut [u16],
    buffer: &mut [u8],
) -> Listed
    ensures { LineListed (asked states transitions.now left.now right.now level) most call
        space.old space.new buffer.old buffer.new result }
{
    let told = ask(states, transitions, left, right, level, most, call, space);
    let line = write_told(told, space, buffer);
    Listed { told, line }
}
