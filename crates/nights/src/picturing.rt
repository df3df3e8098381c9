// The picture calls asked and told.
use crate::asking::Question;
use crate::lines::{Call, Case, Lent};
use crate::spaces::{PATTERN_NUMBER, front, kept};
use pictures::Ending;
use std::io;
use values::limits::MOST_STATES;
use values::refusal::Refusal;

// The ending that a number stands for, as base has it.
fn ending_of(number: usize) -> Ending {
    match number.checked_sub(1) {
        None => Ending::Falls,
        Some(place) => Ending::Back(place),
    }
}

// The answer, and whether the path space stayed, or what is behind the picture.
fn tell<R: Print>(
    case: &Case<R>,
    answer: Result<Option<(usize, Ending)>, Refusal>,
    path: &[u16],
) -> io::Result<()> {
    let before = [PATTERN_NUMBER; MOST_STATES];
    case.begin(Call::Picture)?;
    match answer {
        Ok(Some((n, ending))) => {
            case.path(front(path, n))?;
            print!(case.rt; " {ending}")?;
            return case.kept(Lent::Rest, kept(path, &before, n));
        }
        Ok(None) => print!(case.rt; "none")?,
        Err(refusal) => case.answer(refusal.number())?,
    }
    case.kept(Lent::PathSpace, kept(path, &before, 0))
}

// A picture, with so many entries of a path space lent.
pub(crate) fn picture<R: Print>(
    case: &Case<R>,
    question: Question,
    start: usize,
    room: usize,
) -> io::Result<()> {
    let mut path = [PATTERN_NUMBER; MOST_STATES];
    let answer = pictures::picture(
        question.states,
        question.transitions,
        question.left,
        question.right,
        start,
        &mut path[..room.min(MOST_STATES)],
    );
    tell(case, answer, &path)
}

// The check, asked of a list and a number for its ending.
pub(crate) fn check<R: Print>(
    case: &Case<R>,
    question: Question,
    list: &[u16],
    ending: usize,
) -> io::Result<()> {
    let answer = pictures::check(
        question.states,
        question.transitions,
        question.left,
        question.right,
        list,
        ending_of(ending),
    );
    case.checked(Call::CheckPicture, answer)
}
