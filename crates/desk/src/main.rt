// One model's text on standard input, its whole answer on standard output.
#![tactic(auto)]

use answer::MOST_LINE;
use sheet::Sheet;
use std::io;
use values::limits::{MOST_NODES, MOST_TEXT, MOST_VERDICTS};

// The lines of the answer, up to its end: the number, a row a node, the model's verdict.
fn write_answer(rt: &impl Print, sheet: Sheet, verdicts: &[u8]) -> io::Result<()> {
    let mut buffer = [0u8; MOST_LINE];
    for k in 0..MOST_NODES + 2 {
        let Ok(Some(n)) = sheet::write_line(sheet, verdicts, k, &mut buffer) else {
            return Ok(());
        };
        rt.write_all(&buffer[..n])?;
    }
    Ok(())
}

fn main(rt: HostRuntime) -> io::Result<()> {
    // One byte more than a text may have: a longer one is seen to be too long.
    let mut text = [0u8; MOST_TEXT + 1];
    let n = input::fill(&mut rt.stdin(), &mut text)?;
    let mut verdicts = [0u8; MOST_VERDICTS];
    let sheet = sheet::judge_text(&text[..n], &mut verdicts);
    write_answer(&rt, sheet, &verdicts)
}
