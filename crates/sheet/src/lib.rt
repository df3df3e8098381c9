// What the programs share: a model's text is judged, by its own nodes or by a formula, and the whole answer is written line by line.
//
//   judging   a model that a text holds, read and judged
//   lines     one line of the answer
//
// specs/Answers says what the calls promise, specs/Output what the whole answer is.
#![tactic(auto)]

use answer::Unwritten;
use values::verdict::Verdict;

mod judging;
mod lines;

ghost use Rattle.sheet.specs.Answers.{TextJudged, FormulaJudged, LinePut};
ghost use Rattle.sheet.specs.Output.{output, line_at};

use judging::{Held, refused};
use lines::write_row_at;

// What came of a text: 0 with the counts and the model's verdict, or the number of the refusal and zeros.
// kept: write_line is handed a sheet of any number, and answers for each.
#[derive(Clone, Copy)]
pub struct Sheet {
    pub number: u8,
    pub states: usize,
    pub nodes: usize,
    pub model: Verdict,
}

// Judges the model that a text holds into the verdict space. A refusal, of reading or of judging, leaves it as it was.
pub fn judge_text(text: &[u8], verdicts: &mut [u8]) -> Sheet
    ensures { TextJudged text.now verdicts.old verdicts.new result }
{
    let mut held = Held::empty();
    match held.read(text) {
        Ok(()) => held.judge(verdicts),
        Err(refusal) => refused(refusal),
    }
}

// Judges a formula's text on the model that a text holds, as `judge_text` does; the model's own nodes are not used.
pub fn judge_formula(text: &[u8], formula: &[u8], verdicts: &mut [u8]) -> Sheet
    ensures { FormulaJudged text.now formula.now verdicts.old verdicts.new result }
{
    let mut held = Held::empty();
    match held.read(text) {
        Ok(()) => held.judge_formula(formula, verdicts),
        Err(refusal) => refused(refusal),
    }
}

// Line k of the whole answer, at the front of the buffer: how many bytes it has, the rest of the buffer stays; or none where the last line came
// before. There is no line of a row that the verdict space doesn't hold, and none of what is no verdict: the buffer stays.
pub fn write_line(
    sheet: Sheet,
    verdicts: &[u8],
    k: usize,
    buffer: &mut [u8],
) -> Result<Option<usize>, Unwritten>
    ensures { LinePut (line_at (output sheet verdicts.now) k) buffer.old buffer.new result }
{
    if k == 0 {
        return answer::write_number(sheet.number, buffer).map(Some);
    }
    if sheet.number != 0 {
        return Ok(None);
    }
    let row = k - 1;
    if row < sheet.nodes {
        return write_row_at(sheet.states, verdicts, row, buffer).map(Some);
    }
    if row == sheet.nodes {
        return answer::write_model(sheet.model, buffer).map(Some);
    }
    Ok(None)
}
