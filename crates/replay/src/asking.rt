// The path questions of a frame.
use crate::numbers::{Lines, front};
use crate::{reasons, telling};
use answer::MOST_PATH_LINE;
use listing::{Call, Told};
use pictures::Ending;
use std::io;
use values::refusal::Refusal;

// The most numbers that a frame's list of transitions or nodes has.
pub(crate) const LIST_NUMBERS: usize = 2100;

// The most numbers that a frame's rows and lists have.
pub(crate) const ENTRIES: usize = 300;

// How many paths are told before the rest is left at `more`.
const MOST_TOLD: usize = 200;

// A path question; a picture's question is the same without the level.
// kept: nights has this struct too: shared, its methods would be public calls that promise again what those of paths do.
#[derive(Clone, Copy)]
pub(crate) struct Question<'a> {
    states: usize,
    transitions: &'a [u16],
    left: &'a [u8],
    right: &'a [u8],
    level: u8,
}

impl<'a> Question<'a> {
    // Tells the line of one call, with so many paths still to be told; the path's entries, if it is one's.
    fn list(
        self,
        rt: &impl Print,
        most: usize,
        call: Call,
        space: &mut [u16],
    ) -> io::Result<Option<usize>> {
        let mut line = [0u8; MOST_PATH_LINE];
        let listed = listing::write_line(
            self.states,
            self.transitions,
            self.left,
            self.right,
            self.level,
            most,
            call,
            space,
            &mut line,
        );
        telling::put(rt, listed.line, &line)?;
        match listed.told {
            Ok(Told::Path(n)) => Ok(Some(n)),
            _ => Ok(None),
        }
    }

    fn check(self, list: &[u16]) -> Result<bool, Refusal> {
        paths::check(
            self.states,
            self.transitions,
            self.left,
            self.right,
            self.level,
            list,
        )
    }

    pub(crate) fn picture(
        self,
        start: usize,
        space: &mut [u16],
    ) -> Result<Option<(usize, Ending)>, Refusal> {
        pictures::picture(
            self.states,
            self.transitions,
            self.left,
            self.right,
            start,
            space,
        )
    }

    pub(crate) fn check_picture(self, list: &[u16], ending: Ending) -> Result<bool, Refusal> {
        pictures::check(
            self.states,
            self.transitions,
            self.left,
            self.right,
            list,
            ending,
        )
    }
}

// What a frame asks of its question.
#[derive(Clone, Copy)]
pub(crate) enum Asked {
    // First, and then Next until the end.
    Paths,
    Next,
    Check,
    // Whether there is a picture, and the check's word on it, which is the same whichever picture it is.
    Reason,
    Picture,
    CheckPicture,
}

// Path after path, and how the listing ends.
fn paths(rt: &impl Print, question: Question, first: Call, space: &mut [u16]) -> io::Result<()> {
    let mut call = first;
    for rest in (0..MOST_TOLD + 1).rev() {
        let Some(n) = question.list(rt, rest, call, space)? else {
            return Ok(());
        };
        call = Call::Next(n);
    }
    Ok(())
}

// Lines: states, and for a path question level, and for First start and room; for a picture start and room, for its check the place that
// the list leads back to, if any; transitions; left; right; and for Next and the checks the list.
// kept: lists in arrays, how many entries each has beside it, since memory is fixed, a rule of the project.
pub(crate) fn ask(rt: &impl Print, asked: Asked, body: Lines) -> io::Result<()> {
    let mut lines = body;
    let mut head = [0u16; 4];
    let mut transitions = [0u16; LIST_NUMBERS];
    let mut left = [0u8; ENTRIES];
    let mut right = [0u8; ENTRIES];
    let mut list = [0u16; ENTRIES];
    let heads = lines.numbers(&mut head);
    let t = lines.numbers(&mut transitions);
    let l = lines.bytes(&mut left);
    let r = lines.bytes(&mut right);
    let n = lines.numbers(&mut list);
    let question = Question {
        states: usize::from(head[0]),
        transitions: front(&transitions, t),
        left: front(&left, l),
        right: front(&right, r),
        level: (head[1] % 256) as u8,
    };
    let [_, a, b, c] = head.map(usize::from);
    match asked {
        Asked::Paths => paths(rt, question, Call::First { start: b, room: c }, &mut list),
        Asked::Next => question
            .list(rt, MOST_TOLD, Call::Next(n), &mut list)
            .map(|_| ()),
        Asked::Check => telling::word(rt, question.check(front(&list, n))),
        Asked::Reason => reasons::told(rt, question, a, b, &mut list),
        Asked::Picture => reasons::shown(rt, question, a, b, &mut list),
        Asked::CheckPicture => {
            let ending = if heads < 2 {
                Ending::Falls
            } else {
                Ending::Back(a)
            };
            telling::word(rt, question.check_picture(front(&list, n), ending))
        }
    }
}
