// The formula calls of a frame.
use crate::asking::{ENTRIES, LIST_NUMBERS};
use crate::numbers::{Lines, front};
use crate::telling;
use std::io;
use values::limits::MOST_VERDICTS;

// The bytes of the text space that is lent.
const TEXT_SPACE: usize = 4200;

// A line with the room, and the formula's text behind it.
pub(crate) fn read(rt: &impl Print, body: Lines) -> io::Result<()> {
    let mut lines = body;
    let mut head = [0u16; 1];
    let mut space = [0u16; ENTRIES];
    lines.numbers(&mut head);
    let room = usize::from(head[0]).min(ENTRIES);
    match formula::read_formula(lines.rest, &mut space[..room]) {
        Ok(n) => telling::nodes(rt, front(&space, n.saturating_mul(3))),
        Err(refusal) => telling::number(rt, refusal.number()),
    }
}

// Lines: the room; the list of nodes.
pub(crate) fn print(rt: &impl Print, body: Lines) -> io::Result<()> {
    let mut lines = body;
    let mut head = [0u16; 1];
    let mut list = [0u16; LIST_NUMBERS];
    let mut text = [0u8; TEXT_SPACE];
    lines.numbers(&mut head);
    let n = lines.numbers(&mut list);
    let room = usize::from(head[0]).min(TEXT_SPACE);
    let answer = formula::print_formula(front(&list, n), &mut text[..room]);
    telling::printed(rt, answer, &text)
}

// Lines: the room and the node; the list of nodes.
pub(crate) fn print_part(rt: &impl Print, body: Lines) -> io::Result<()> {
    let mut lines = body;
    let mut head = [0u16; 2];
    let mut list = [0u16; LIST_NUMBERS];
    let mut text = [0u8; TEXT_SPACE];
    lines.numbers(&mut head);
    let n = lines.numbers(&mut list);
    let [room, node] = head.map(usize::from);
    let answer = formula::print_part(front(&list, n), node, &mut text[..room.min(TEXT_SPACE)]);
    telling::printed(rt, answer, &text)
}

// The formula's line, and the model's text behind it: the number, the last row and the model's verdict.
pub(crate) fn judge(rt: &impl Print, body: Lines) -> io::Result<()> {
    let mut lines = body;
    let formula = lines.line();
    let mut verdicts = [0u8; MOST_VERDICTS];
    let sheet = sheet::judge_formula(lines.rest, formula, &mut verdicts);
    telling::number(rt, sheet.number)?;
    if sheet.number == 0 {
        telling::line(rt, sheet, &verdicts, sheet.nodes)?;
        telling::line(rt, sheet, &verdicts, sheet.nodes.saturating_add(1))?;
    }
    Ok(())
}
