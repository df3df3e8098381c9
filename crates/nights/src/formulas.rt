// The formula calls asked and told: texts read and printed back, lists of nodes printed, formulas judged over a model's text.
use crate::layers::Depth;
use crate::lines::{Call, Case, Lent};
use crate::spaces::{PATTERN, PATTERN_NUMBER, front, kept};
use crate::table::piece;
use crate::{judging, layers, reading};
use std::io;
use values::limits::{MOST_FORMULA, MOST_NODE_NUMBERS, MOST_VERDICTS};
use values::refusal::Refusal;

// What printing answered, and whether the text space stayed, or what is behind the text.
fn tell_printed<R: Print>(
    case: &Case<R>,
    call: Call,
    answer: Result<usize, Refusal>,
    space: &[u8],
) -> io::Result<()> {
    let before = [PATTERN; MOST_FORMULA];
    case.begin(call)?;
    match answer {
        Ok(n) => {
            print!(case.rt; "text=")?;
            case.rt.write_all(front(space, n))?;
            case.kept(Lent::Rest, kept(space, &before, n))
        }
        Err(refusal) => {
            case.answer(refusal.number())?;
            case.kept(Lent::TextSpace, kept(space, &before, 0))
        }
    }
}

// A list printed into so many bytes of a text space.
pub(crate) fn print<R: Print>(case: &Case<R>, nodes: &[u16], room: usize) -> io::Result<()> {
    let mut space = [PATTERN; MOST_FORMULA];
    let answer = formula::print_formula(nodes, &mut space[..room.min(MOST_FORMULA)]);
    tell_printed(case, Call::PrintFormula, answer, &space)
}

// The same of the part of a list that a node is.
pub(crate) fn print_part<R: Print>(
    case: &Case<R>,
    nodes: &[u16],
    node: usize,
    room: usize,
) -> io::Result<()> {
    let mut space = [PATTERN; MOST_FORMULA];
    let answer = formula::print_part(nodes, node, &mut space[..room.min(MOST_FORMULA)]);
    tell_printed(case, Call::PrintPart, answer, &space)
}

// What reading answered, and whether the node space stayed, or what is behind the nodes; these are printed back.
fn tell_read<R: Print>(
    case: &Case<R>,
    answer: Result<usize, Refusal>,
    space: &[u16],
) -> io::Result<()> {
    let before = [PATTERN_NUMBER; MOST_NODE_NUMBERS];
    case.begin(Call::ReadFormula)?;
    match answer {
        Ok(n) => {
            let end = n.saturating_mul(3);
            print!(case.rt; "nodes={n}")?;
            case.kept(Lent::Rest, kept(space, &before, end))?;
            print(case, front(space, end), MOST_FORMULA)
        }
        Err(refusal) => {
            case.answer(refusal.number())?;
            case.kept(Lent::NodeSpace, kept(space, &before, 0))
        }
    }
}

// A text read into so many numbers of a node space.
pub(crate) fn read<R: Print>(case: &Case<R>, text: &[u8], room: usize) -> io::Result<()> {
    let mut space = [PATTERN_NUMBER; MOST_NODE_NUMBERS];
    let answer = formula::read_formula(text, &mut space[..room.min(MOST_NODE_NUMBERS)]);
    tell_read(case, answer, &space)
}

// The text that a code stands for, read.
pub(crate) fn layered<R: Print>(case: &Case<R>, depth: Depth, code: &[u8]) -> io::Result<()> {
    let mut page = [0u8; MOST_FORMULA + 1];
    let n = layers::write(&mut page, depth, code);
    read(case, front(&page, n), MOST_NODE_NUMBERS)
}

// A formula judged over a model's text with so much room.
fn judge<R: Print>(case: &Case<R>, formula: &[u8], text: &[u8], room: usize) -> io::Result<()> {
    let mut space = [PATTERN; MOST_VERDICTS];
    let sheet = sheet::judge_formula(text, formula, &mut space[..room.min(MOST_VERDICTS)]);
    judging::told(case, Call::JudgeFormula, sheet, &space)
}

// A formula on a line and a model's text behind it, judged; the text as it is, or up to so many bytes with line feeds behind it.
pub(crate) fn judged<R: Print>(
    case: &Case<R>,
    code: &[u8],
    size: Option<usize>,
    room: usize,
) -> io::Result<()> {
    let formula = piece(code, 0, b'\n');
    let text = code.get(formula.len() + 1..).unwrap_or(&[]);
    let Some(size) = size else {
        return judge(case, formula, text, room);
    };
    let page = reading::page(text);
    judge(case, formula, front(&page, size), room)
}
