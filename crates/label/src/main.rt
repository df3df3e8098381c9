// Lines of measurements on standard input, each a gate and a measurement; on standard output one line for each, its label or the number of
// its refusal.
#![tactic(auto)]

ghost use Rattle.std.specs.Prelude.{◌≤◌, length};

use answer::{MOST_LINE, Unwritten};
use labelling::label_line;
use std::io;
use values::refusal::Refusal;
use values::verdict::Verdict;

// One byte more than a line may have: a longer one is seen to be too long.
const KEPT: usize = labelling::MOST_LINE + 1;

// The most bytes that one read asks for.
const PIECE: usize = 4096;

// What is kept of a line so far.
// kept: an array and how much of it counts, since memory is fixed, a rule of the project.
#[derive(Drop)]
struct Line {
    bytes: [u8; KEPT],
    kept: usize,
    ghost within: { kept ≤ length bytes },
}

impl Line {
    fn text(&self) -> &[u8] {
        &self.bytes[..self.kept]
    }

    // Puts a byte behind the others while there is room.
    fn push(&mut self, byte: u8) {
        if self.kept < KEPT {
            self.bytes[self.kept] = byte;
            self.kept += 1;
        }
    }
}

// The bytes that a writer put at the front of a line.
// kept: the twin of witness's: of what is printed no contract says anything, so a shared function could promise nothing.
fn put(rt: &impl Print, written: Result<usize, Unwritten>, line: &[u8]) -> io::Result<()> {
    let Ok(n) = written else {
        return Ok(());
    };
    if n <= line.len() {
        rt.write_all(&line[..n])?;
    }
    Ok(())
}

fn refused(rt: &impl Print, refusal: Refusal) -> io::Result<()> {
    let mut line = [0u8; MOST_LINE];
    let written = answer::write_number(refusal.number(), &mut line);
    put(rt, written, &line)
}

// kept: a Verdict may be none of the three, and a Display would have to print that too; replay and nights print letters so as well.
fn letter(rt: &impl Print, label: Verdict) -> io::Result<()> {
    match label {
        Verdict::FALSE => rt.write_all(b"F\n"),
        Verdict::UNKNOWN => rt.write_all(b"U\n"),
        _ => rt.write_all(b"T\n"),
    }
}

fn tell(rt: &impl Print, line: &[u8]) -> io::Result<()> {
    match label_line(line) {
        Ok(label) => letter(rt, label),
        Err(refusal) => refused(rt, refusal),
    }
}

// A line feed ends the line, which is answered then; any other byte goes behind it.
fn take_byte(rt: &impl Print, byte: u8, line: &mut Line) -> io::Result<()> {
    if byte == b'\n' {
        tell(rt, line.text())?;
        line.kept = 0;
        return Ok(());
    }
    line.push(byte);
    Ok(())
}

fn take_piece(rt: &impl Print, piece: &[u8], line: &mut Line) -> io::Result<()> {
    for byte in piece {
        take_byte(rt, *byte, line)?;
    }
    Ok(())
}

// One read of standard input, and whether it gave anything.
fn turn(rt: &impl Print, reader: &mut impl io::Read, line: &mut Line) -> io::Result<bool> {
    let mut piece = [0u8; PIECE];
    let n = input::read_some(reader, &mut piece)?;
    take_piece(rt, &piece[..n], line)?;
    Ok(n != 0)
}

fn read_lines(rt: &impl Print, reader: &mut impl io::Read, line: &mut Line) -> io::Result<()> {
    for _ in 0..u64::MAX {
        if !turn(rt, reader, line)? {
            return Ok(());
        }
    }
    Ok(())
}

// A last line without its line feed may have been cut off, and is in no form.
fn main(rt: HostRuntime) -> io::Result<()> {
    let mut line = Line {
        bytes: [0; KEPT],
        kept: 0,
    };
    read_lines(&rt, &mut rt.stdin(), &mut line)?;
    if line.kept != 0 {
        refused(&rt, Refusal::TextForm)?;
    }
    Ok(())
}
