// The path calls asked and told.
use crate::lines::{Call, Case, Lent};
use crate::spaces::{PATTERN_NUMBER, front, kept};
use paths::Further;
use std::io;
use values::limits::MOST_STATES;
use values::refusal::Refusal;

// A path question; a picture's question is the same without the level.
// kept: replay has this struct too: shared, its methods would be public calls that promise again what those of paths do.
#[derive(Clone, Copy)]
pub(crate) struct Question<'a> {
    pub(crate) states: usize,
    pub(crate) transitions: &'a [u16],
    pub(crate) left: &'a [u8],
    pub(crate) right: &'a [u8],
    pub(crate) level: u8,
}

impl<'a> Question<'a> {
    fn first(&self, start: usize, path: &mut [u16]) -> Result<Option<usize>, Refusal> {
        paths::first(
            self.states,
            self.transitions,
            self.left,
            self.right,
            self.level,
            start,
            path,
        )
    }

    // The next path is as long as the list that is lent.
    fn next(&self, path: &mut [u16]) -> Result<Option<usize>, Refusal> {
        let more = paths::next(
            self.states,
            self.transitions,
            self.left,
            self.right,
            self.level,
            path,
        )?;
        match more {
            Further::Path => Ok(Some(path.len())),
            Further::End => Ok(None),
        }
    }

    fn check(&self, list: &[u16]) -> Result<bool, Refusal> {
        paths::check(
            self.states,
            self.transitions,
            self.left,
            self.right,
            self.level,
            list,
        )
    }
}

// What stood in a space before a call that looks for a path, and what is said of it where there is none.
#[derive(Drop)]
struct Search<'a> {
    call: Call,
    before: &'a [u16],
    lent: Lent,
    none: &'a str,
}

impl<'a> Search<'a> {
    // The path, and whether what is behind it stayed; or else why there is none, and whether the space stayed.
    fn tell<R: Print>(
        &self,
        case: &Case<R>,
        answer: Result<Option<usize>, Refusal>,
        path: &[u16],
    ) -> io::Result<()> {
        case.begin(self.call)?;
        match answer {
            Ok(Some(n)) => {
                case.path(front(path, n))?;
                return case.kept(Lent::Rest, kept(path, self.before, n));
            }
            Ok(None) => print!(case.rt; "{}", self.none)?,
            Err(refusal) => case.answer(refusal.number())?,
        }
        case.kept(self.lent, kept(path, self.before, 0))
    }
}

// First, lent so many entries of a path space; the space afterwards.
pub(crate) fn first<R: Print>(
    case: &Case<R>,
    question: Question,
    start: usize,
    room: usize,
) -> io::Result<[u16; MOST_STATES]> {
    let search = Search {
        call: Call::First,
        before: &[PATTERN_NUMBER; MOST_STATES],
        lent: Lent::PathSpace,
        none: "none",
    };
    let mut path = [PATTERN_NUMBER; MOST_STATES];
    let answer = question.first(start, &mut path[..room.min(MOST_STATES)]);
    search.tell(case, answer, &path)?;
    Ok(path)
}

// Next, lent a list at the front of a space.
pub(crate) fn next<R: Print>(case: &Case<R>, question: Question, list: &[u16]) -> io::Result<()> {
    let n = list.len().min(MOST_STATES);
    let mut path = [PATTERN_NUMBER; MOST_STATES];
    path[..n].copy_from_slice(&list[..n]);
    let before = path;
    let search = Search {
        call: Call::Next,
        before: &before,
        lent: Lent::List,
        none: "end",
    };
    let answer = question.next(&mut path[..n]);
    search.tell(case, answer, &path)
}

// Check, asked of a list.
pub(crate) fn check<R: Print>(case: &Case<R>, question: Question, list: &[u16]) -> io::Result<()> {
    case.checked(Call::Check, question.check(list))
}
