// The nights that are run: cases from standard input, one line a case and call, held to the stored output.
//
//   cases      what a case is, and which call it asks
//   base       the model and the path question that the cases change, by codes
//   largest    as much of everything as there may be
//   layers     formulas as deep as there may be
//   judging, asking, picturing, reading, formulas, labels   the calls asked and told
//   table, lines, spaces   the pieces of a row, the words of a line, what was lent compared
#![tactic(auto)]

mod asking;
mod base;
mod cases;
mod formulas;
mod judging;
mod labels;
mod largest;
mod layers;
mod lines;
mod picturing;
mod reading;
mod spaces;
mod table;

use std::io;

// The most bytes of cases that are taken in.
const MOST_CASES: usize = 65536;

fn main(rt: HostRuntime) -> io::Result<()> {
    let mut cases = [0u8; MOST_CASES];
    let n = input::fill(&mut rt.stdin(), &mut cases)?;
    cases::run(&rt, &cases[..n])
}
