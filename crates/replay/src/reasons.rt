// The pictures of a frame: why an A-until is false.
use crate::asking::Question;
use crate::numbers::front;
use crate::telling;
use pictures::Ending;
use std::io;

// A picture from a start, with so many entries of the space lent, or all where there are fewer: its length and ending, or told why there is none.
// kept: start and room by themselves: a struct of them would be made for two calls, to be opened here.
fn picture(
    rt: &impl Print,
    question: Question,
    start: usize,
    room: usize,
    space: &mut [u16],
) -> io::Result<Option<(usize, Ending)>> {
    let lent = room.min(space.len());
    match question.picture(start, &mut space[..lent]) {
        Ok(Some(picture)) => return Ok(Some(picture)),
        Ok(None) => println!(rt; "none")?,
        Err(refusal) => telling::number(rt, refusal.number())?,
    }
    Ok(None)
}

// Whether there is a picture, and the check's word on it.
pub(crate) fn told(
    rt: &impl Print,
    question: Question,
    start: usize,
    room: usize,
    space: &mut [u16],
) -> io::Result<()> {
    let Some((n, ending)) = picture(rt, question, start, room, space)? else {
        return Ok(());
    };
    println!(rt; "picture")?;
    telling::word(rt, question.check_picture(front(space, n), ending))
}

// The picture itself.
pub(crate) fn shown(
    rt: &impl Print,
    question: Question,
    start: usize,
    room: usize,
    space: &mut [u16],
) -> io::Result<()> {
    let Some((n, ending)) = picture(rt, question, start, room, space)? else {
        return Ok(());
    };
    telling::path(rt, front(space, n))?;
    println!(rt; "{ending}")
}
