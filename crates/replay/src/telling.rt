// Answers of the path calls, of the formula calls, of the label calls and of the picture calls, written out.
use crate::numbers::front;
use answer::{MOST_LINE, MOST_PATH_LINE, Unwritten};
use sheet::Sheet;
use std::{fmt, io};
use values::refusal::Refusal;
use values::verdict::Verdict;

// The bytes that a writer put at the front of a line.
pub(crate) fn put(
    rt: &impl Print,
    written: Result<usize, Unwritten>,
    line: &[u8],
) -> io::Result<()> {
    match written {
        Ok(n) => rt.write_all(front(line, n)),
        Err(_) => Ok(()),
    }
}

// Line k of a whole answer; whether there is one.
pub(crate) fn line(rt: &impl Print, sheet: Sheet, verdicts: &[u8], k: usize) -> io::Result<bool> {
    let mut line = [0u8; MOST_LINE];
    let Ok(Some(n)) = sheet::write_line(sheet, verdicts, k, &mut line) else {
        return Ok(false);
    };
    rt.write_all(front(&line, n))?;
    Ok(true)
}

// The number of a refusal, or 0.
// kept: a sheet has a number, and the line of 0 is written by the same call.
pub(crate) fn number(rt: &impl Print, number: u8) -> io::Result<()> {
    let mut line = [0u8; MOST_LINE];
    let written = answer::write_number(number, &mut line);
    put(rt, written, &line)
}

// A label's letter, or the number of its refusal.
// kept: a Verdict may be none of the three, and a Display would have to print that too.
pub(crate) fn labelled(rt: &impl Print, answer: Result<Verdict, Refusal>) -> io::Result<()> {
    match answer {
        Ok(Verdict::FALSE) => println!(rt; "F"),
        Ok(Verdict::UNKNOWN) => println!(rt; "U"),
        Ok(_) => println!(rt; "T"),
        Err(refusal) => number(rt, refusal.number()),
    }
}

// What a check says of a list.
pub(crate) fn word(rt: &impl Print, answer: Result<bool, Refusal>) -> io::Result<()> {
    match answer {
        Ok(true) => println!(rt; "yes"),
        Ok(false) => println!(rt; "no"),
        Err(refusal) => number(rt, refusal.number()),
    }
}

// kept: the twin of witness's tell_list: of what is printed no contract says anything, so a shared function could promise nothing.
pub(crate) fn path(rt: &impl Print, path: &[u16]) -> io::Result<()> {
    let mut line = [0u8; MOST_PATH_LINE];
    let written = answer::write_path(path, &mut line);
    put(rt, written, &line)
}

// Numbers with commas between them.
#[derive(Debug, Drop)]
struct Commas<'a>(&'a [u16]);

impl<'a> fmt::Display for Commas<'a> {
    fn fmt<W: fmt::Write>(&self, f: &mut fmt::Formatter<W>) -> fmt::Result {
        let mut mark = "";
        for number in self.0 {
            write!(f, "{mark}{number}")?;
            mark = ",";
        }
        Ok(())
    }
}

// The numbers of the nodes that were read.
pub(crate) fn nodes(rt: &impl Print, list: &[u16]) -> io::Result<()> {
    number(rt, 0)?;
    println!(rt; "nodes={}", Commas(list))
}

// The text that was printed at the front of a space.
pub(crate) fn printed(
    rt: &impl Print,
    answer: Result<usize, Refusal>,
    space: &[u8],
) -> io::Result<()> {
    match answer {
        Ok(n) => {
            number(rt, 0)?;
            print!(rt; "text=")?;
            rt.write_all(front(space, n))?;
            println!(rt)
        }
        Err(refusal) => number(rt, refusal.number()),
    }
}
