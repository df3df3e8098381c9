// First and Next, made on the front of the path space, and what their answers tell.
ghost use Rattle.std.specs.Prelude.{◌≡◌};
ghost use Rattle.paths.specs.Questions.{asked};
ghost use Rattle.listing.specs.Answers.{path_told, first_told, next_told, Calls};
ghost use Rattle.listing.specs.Inside.{Front};

use crate::{Call, Told};
use paths::Further;
use values::refusal::Refusal;

// How many entries are the first n of a path space: n, or all where there are fewer.
pub(crate) fn front(n: usize, space: &[u16]) -> usize
    ensures { Front n space.now result }
{
    n.min(space.len())
}

// A path, or that there are more where none is to be listed any more.
fn path_told(most: usize, n: usize) -> Told
    ensures { result ≡ path_told most n }
{
    if most == 0 {
        return Told::More;
    }
    Told::Path(n)
}

fn first_told(most: usize, answer: Result<Option<usize>, Refusal>) -> Result<Told, Refusal>
    ensures { result ≡ first_told most answer }
{
    match answer? {
        Some(n) => Ok(path_told(most, n)),
        None => Ok(Told::None),
    }
}

fn next_told(most: usize, n: usize, answer: Result<Further, Refusal>) -> Result<Told, Refusal>
    ensures { result ≡ next_told most n answer }
{
    match answer? {
        Further::Path => Ok(path_told(most, n)),
        Further::End => Ok(Told::End),
    }
}

// The call made on the front of the path space, and what it tells.
// kept: a struct of the question would be filled by the one caller, only to be taken apart for the calls of `paths`
pub(crate) fn ask(
    states: usize,
    transitions: &[u16],
    left: &[u8],
    right: &[u8],
    level: u8,
    most: usize,
    call: Call,
    space: &mut [u16],
) -> Result<Told, Refusal>
    ensures { Calls (asked states transitions.now left.now right.now level) most call space.old space.new result }
{
    match call {
        Call::First { start, room } => {
            let n = front(room, space);
            let answer = paths::first(
                states,
                transitions,
                left,
                right,
                level,
                start,
                &mut space[..n],
            );
            first_told(most, answer)
        }
        Call::Next(entries) => {
            let n = front(entries, space);
            let answer = paths::next(states, transitions, left, right, level, &mut space[..n]);
            next_told(most, entries, answer)
        }
    }
}
