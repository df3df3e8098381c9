// The line of what is told.
ghost use Rattle.answer.specs.Answers.{LineWritten};
ghost use Rattle.answer.specs.Answers.Due.{line};
ghost use Rattle.listing.specs.Answers.{told_due};

use crate::Told;
use crate::calls::front;
use answer::Unwritten;
use values::refusal::Refusal;

// A word that has its line feed, as a line.
fn write_word(word: &[u8], buffer: &mut [u8]) -> Result<usize, Unwritten>
    ensures { LineWritten (line word.now) buffer.old buffer.new result }
{
    let n = word.len();
    if buffer.len() < n {
        return Err(Unwritten::NoRoom);
    }
    buffer[..n].copy_from_slice(word);
    Ok(n)
}

// The path stands at the front of the path space.
pub(crate) fn write_told(
    told: Result<Told, Refusal>,
    space: &[u16],
    buffer: &mut [u8],
) -> Result<usize, Unwritten>
    ensures { LineWritten (told_due told space.now) buffer.old buffer.new result }
{
    match told {
        Ok(Told::Path(entries)) => {
            let n = front(entries, space);
            answer::write_path(&space[..n], buffer)
        }
        Ok(Told::None) => write_word(b"none\n", buffer),
        Ok(Told::End) => write_word(b"end\n", buffer),
        Ok(Told::More) => write_word(b"more\n", buffer),
        Err(refusal) => answer::write_number(refusal.number(), buffer),
    }
}
