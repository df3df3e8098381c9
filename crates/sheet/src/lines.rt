// One line of the answer.
ghost use Rattle.answer.specs.Answers.{LineWritten};
ghost use Rattle.sheet.specs.Output.{row_at};

use answer::Unwritten;
use values::limits::{MOST_NODES, MOST_STATES};

// The line of row k of the verdict space.
pub(crate) fn write_row_at(
    states: usize,
    verdicts: &[u8],
    k: usize,
    buffer: &mut [u8],
) -> Result<usize, Unwritten>
    ensures { LineWritten (row_at states verdicts.now k) buffer.old buffer.new result }
{
    if MOST_NODES <= k {
        return Err(Unwritten::NoLine);
    }
    if MOST_STATES < states {
        return Err(Unwritten::NoLine);
    }
    let size = values::rows::row_size(states);
    let begin = k * size;
    let end = begin + size;
    if verdicts.len() < end {
        return Err(Unwritten::NoLine);
    }
    answer::write_row(states, &verdicts[begin..end], buffer)
}
