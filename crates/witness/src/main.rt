// One model's text on standard input, a question in the arguments: why a node or a formula is true, possible or false at a state, as paths,
// one a line, or as a picture.
//
//   words     the question, from the arguments
//   asking    the question put to a model that was judged
//   table     the node that is asked about, of the model or of a formula
//   reasons   the reason that its kind has for what is claimed
//   telling   line after line, written out as it comes
#![tactic(auto)]

mod asking;
mod reasons;
mod table;
mod telling;
mod words;

use std::env::Env;
use std::io;
use values::limits::{MOST_FORMULA, MOST_TEXT};

fn main(rt: HostRuntime) -> io::Result<()> {
    let Some(wanted) = words::asked(&rt) else {
        return println!(rt;
            "no question: give a node or a formula, a state, true, possible or false, and at most how many paths if not all"
        );
    };
    // One byte more than a formula or a text may have: a longer one is seen to be too long. A word that isn't whole even so comes out
    // empty, and that is no formula either.
    let mut word = [0u8; MOST_FORMULA + 1];
    let length = rt.arg(1, &mut word).unwrap_or(0);
    let mut text = [0u8; MOST_TEXT + 1];
    let n = input::fill(&mut rt.stdin(), &mut text)?;
    asking::answer(&rt, &text[..n], &word[..length], wanted)
}
