// One model's text on standard input, a formula in the arguments: the formula's row and the model's verdict. A second word, as parts, asks for
// the rows of the formula's parts too.
//
//   telling   line after line, written out
#![tactic(auto)]

mod telling;

use std::env::{Env, FillError};
use std::io;
use telling::Judged;
use values::limits::{MOST_FORMULA, MOST_TEXT, MOST_VERDICTS};

// One word more than is ever asked with, the program's name among them.
const MOST_WORDS: usize = 4;

// How many words the program was called with, its name among them; from the most on they aren't counted.
// kept: `witness` counts its words alike, but of the words that there are no contract says anything, so a shared function could promise no count.
fn word_count(rt: &HostRuntime) -> usize {
    for i in 0..MOST_WORDS {
        // No space is lent: what is given is too long for it, or empty.
        if let Err(FillError::NotPresent) = rt.arg(i, &mut []) {
            return i;
        }
    }
    MOST_WORDS
}

// One byte more than a text or a formula may have: a longer one is seen to be too long. A word that isn't whole even so comes out empty,
// and that is no formula either.
// kept: whether parts are wanted as a bool: one call has a step more, and a closure for it would be empty in the other.
fn answer(rt: &HostRuntime, parts: bool) -> io::Result<()> {
    let mut formula = [0u8; MOST_FORMULA + 1];
    let length = rt.arg(1, &mut formula).unwrap_or(0);
    let mut text = [0u8; MOST_TEXT + 1];
    let n = input::fill(&mut rt.stdin(), &mut text)?;
    let mut verdicts = [0u8; MOST_VERDICTS];
    let sheet = sheet::judge_formula(&text[..n], &formula[..length], &mut verdicts);
    let judged = Judged {
        sheet,
        verdicts: &verdicts,
    };
    judged.number(rt)?;
    if parts {
        judged.parts(rt, &formula[..length])?;
    }
    judged.whole(rt)
}

fn main(rt: HostRuntime) -> io::Result<()> {
    match word_count(&rt) {
        2 => answer(&rt, false),
        3 => answer(&rt, true),
        _ => rt.write_all(
            b"no question: give a formula, and a second word if its parts are wanted too\n",
        ),
    }
}
