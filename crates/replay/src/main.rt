// Framed cases on standard input, their answers on standard output, through the same calls as the other programs.
// A frame is six digits, the length of its body, a line feed, and the body. The body's first line is a letter:
//
//   M   a model's text: the whole answer
//   F   a path question with a start and a room: First, and then Next until the end
//   N   a path question with a list: Next
//   C   the same: Check
//   R   a room and a formula's text: the nodes that are read into so many numbers
//   P   a room and a list of nodes: the text that is printed into so many bytes
//   K   the same with a node behind the room: its part alone
//   Q   a formula on a line and a model's text: the formula's row and the model's verdict
//   V   a voltage gate and a reading, by their bits: its label
//   D   a delay gate and two counters, by their bits: the delay and its label
//   L   lines of the label desk: a label for each
//   W   a path question without a level, with a start and a room: whether there is a picture, and Check's word on it
//   S   the same: the picture
//   X   a path question without a level, with a list and its ending: whether this is a picture
//
// Behind each answer stands a line with a dot.
#![tactic(auto)]

mod asking;
mod formulas;
mod measures;
mod numbers;
mod reasons;
mod telling;

use asking::Asked;
use numbers::Lines;
use std::io;
use std::io::Read;
use values::limits::{MOST_NODES, MOST_VERDICTS};

// The whole answer, up to its end: the number, a row a node, the model's verdict.
fn model(rt: &impl Print, text: &[u8]) -> io::Result<()> {
    let mut verdicts = [0u8; MOST_VERDICTS];
    let sheet = sheet::judge_text(text, &mut verdicts);
    for k in 0..MOST_NODES + 2 {
        if !telling::line(rt, sheet, &verdicts, k)? {
            return Ok(());
        }
    }
    Ok(())
}

fn answer(rt: &impl Print, frame: &[u8]) -> io::Result<()> {
    let [kind, _, body @ ..] = frame else {
        return Ok(());
    };
    let lines = Lines { rest: body };
    match *kind {
        b'M' => model(rt, body)?,
        b'F' => asking::ask(rt, Asked::Paths, lines)?,
        b'N' => asking::ask(rt, Asked::Next, lines)?,
        b'R' => formulas::read(rt, lines)?,
        b'P' => formulas::print(rt, lines)?,
        b'K' => formulas::print_part(rt, lines)?,
        b'Q' => formulas::judge(rt, lines)?,
        b'V' => measures::voltage(rt, body)?,
        b'D' => measures::ticks(rt, body)?,
        b'L' => measures::lines(rt, body)?,
        b'W' => asking::ask(rt, Asked::Reason, lines)?,
        b'S' => asking::ask(rt, Asked::Picture, lines)?,
        b'X' => asking::ask(rt, Asked::CheckPicture, lines)?,
        _ => asking::ask(rt, Asked::Check, lines)?,
    }
    println!(rt; ".")
}

// The most bytes of a frame's body.
const MOST_BODY: usize = 65536;

// One frame; false where there is none.
fn turn(rt: &impl Print, reader: &mut impl Read) -> io::Result<bool> {
    let mut head = [0u8; 7];
    if input::fill(reader, &mut head)? != 7 {
        return Ok(false);
    }
    let n = numbers::decimal(&head[..6]) as usize;
    if MOST_BODY < n {
        return Ok(false);
    }
    let mut body = [0u8; MOST_BODY];
    let got = input::fill(reader, &mut body[..n])?;
    answer(rt, &body[..got])?;
    Ok(true)
}

fn main(rt: HostRuntime) -> io::Result<()> {
    let mut reader = rt.stdin();
    for _ in 0..u64::MAX {
        if !turn(&rt, &mut reader)? {
            return Ok(());
        }
    }
    Ok(())
}
