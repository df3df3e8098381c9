// Lines written out as they come.
use crate::reasons::Form;
use crate::words::Wanted;
use answer::{MOST_LINE, MOST_PATH_LINE, Unwritten};
use listing::{Call, Told};
use pictures::Ending;
use std::io;
use values::limits::MOST_STATES;
use values::verdict::Verdict;

// The bytes that a writer put at the front of a line.
// kept: the twin of label's: of what is printed no contract says anything, so a shared function could promise nothing.
fn put(rt: &impl Print, written: Result<usize, Unwritten>, line: &[u8]) -> io::Result<()> {
    let Ok(n) = written else {
        return Ok(());
    };
    if n <= line.len() {
        rt.write_all(&line[..n])?;
    }
    Ok(())
}

// The number of a refusal.
// kept: by number, as a sheet has it; the twin of replay's: of what is printed no contract says anything, so a shared function could promise nothing.
pub(crate) fn refused(rt: &impl Print, number: u8) -> io::Result<()> {
    let mut line = [0u8; MOST_LINE];
    let written = answer::write_number(number, &mut line);
    put(rt, written, &line)
}

// kept: the twin of replay's path: of what is printed no contract says anything, so a shared function could promise nothing.
fn tell_list(rt: &impl Print, list: &[u16]) -> io::Result<()> {
    let mut line = [0u8; MOST_PATH_LINE];
    let written = answer::write_path(list, &mut line);
    put(rt, written, &line)
}

// Where no list is to be told, only that there is one.
fn tell_picture(rt: &impl Print, list: &[u16], ending: Ending, most: usize) -> io::Result<()> {
    if most == 0 {
        return println!(rt; "more");
    }
    tell_list(rt, list)?;
    println!(rt; "{ending}")
}

// The until that a reason is of: the transitions, and the left and the right row.
// kept: nights and replay have this with a level: shared, its methods would be public calls that promise again what those of listing do.
#[derive(Drop)]
pub(crate) struct Until<'a> {
    pub(crate) states: usize,
    pub(crate) transitions: &'a [u16],
    pub(crate) left: &'a [u8],
    pub(crate) right: &'a [u8],
}

impl<'a> Until<'a> {
    // Path after path, as many as asked for, and how the listing ends.
    fn list(&self, rt: &impl Print, level: Verdict, wanted: Wanted) -> io::Result<()> {
        let mut space = [0u16; MOST_STATES];
        let mut line = [0u8; MOST_PATH_LINE];
        let mut call = Call::First {
            start: wanted.start,
            room: MOST_STATES,
        };
        let mut rest = wanted.most;
        // kept: most may be the greatest usize: 0..most + 1 would overflow, and an inclusive range has an exit more, which is never reached.
        loop {
            let listed = listing::write_line(
                self.states,
                self.transitions,
                self.left,
                self.right,
                level.number(),
                rest,
                call,
                &mut space,
                &mut line,
            );
            let written = listed.line;
            let told = listed.told;
            put(rt, written, &line)?;
            let Ok(line_told) = told else {
                return Ok(());
            };
            let Told::Path(n) = line_told else {
                return Ok(());
            };
            call = Call::Next(n);
            rest -= 1;
        }
    }

    fn picture(&self, rt: &impl Print, wanted: Wanted) -> io::Result<()> {
        let mut space = [0u16; MOST_STATES];
        let found = pictures::picture(
            self.states,
            self.transitions,
            self.left,
            self.right,
            wanted.start,
            &mut space,
        );
        match found {
            Ok(Some((n, ending))) => {
                let list = space.get(..n).unwrap_or(&[]);
                tell_picture(rt, list, ending, wanted.most)
            }
            Ok(None) => println!(rt; "none"),
            Err(refusal) => refused(rt, refusal.number()),
        }
    }

    pub(crate) fn tell(&self, rt: &impl Print, form: Form, wanted: Wanted) -> io::Result<()> {
        match form {
            Form::Paths(level) => self.list(rt, level, wanted),
            Form::Picture => self.picture(rt, wanted),
        }
    }
}
