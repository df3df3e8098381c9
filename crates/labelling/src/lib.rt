// A line of the label desk, a gate and a measurement as text, read and labelled. What the call promises is named in specs/ and settled for
// every input.
//
//   numbers   two numbers with a comma, and gates, by the reader of one number
//   volts     voltages, and the label of a reading
//   ticks     limits of delays and counters, and the label of a delay
#![tactic(auto)]

mod numbers;
mod ticks;
mod volts;

ghost use Rattle.labelling.specs.Lines.{said_both};
ghost use Rattle.labelling.specs.Answers.{Labels, LineLabelled};

use numerals::texts::split_once;
use values::refusal::Refusal;
use values::verdict::Verdict;

// Of a line, in bytes.
pub const MOST_LINE: usize = 128;

#[tactic(auto, using(crate::proofs::Keys::volts_is, crate::proofs::Keys::ticks_is), unfolding(crate::specs::Lines::said_both))]
fn label_parts(limits: &[u8], measured: &[u8]) -> Result<Verdict, Refusal>
    ensures { Labels (said_both limits.now measured.now) result }
{
    if let Some(ends) = measured.strip_prefix(b"volts=") {
        return volts::label_volts(limits, ends);
    }
    if let Some(counters) = measured.strip_prefix(b"ticks=") {
        return ticks::label_ticks(limits, counters);
    }
    Err(Refusal::TextForm)
}

// The label of a line, which is without its line feed; TextForm where it breaks the form, Gate where its gate has a NaN or crossed limits.
#[tactic(auto, unfolding(crate::specs::Lines::said))]
pub fn label_line(line: &[u8]) -> Result<Verdict, Refusal>
    ensures { LineLabelled line.now result }
{
    if MOST_LINE < line.len() {
        return Err(Refusal::TextForm);
    }
    let (limits, measured) = split_once(line, b' ').ok_or(Refusal::TextForm)?;
    label_parts(limits, measured)
}
