// The cases. A case has three parts: a letter, a name, and a code of changes or a text.
// The letter is the last byte of its part; what stands before it says why the cases are there.
//
//   j        judged, and asked for its refusal; n told in short, as a night
//   L l o O  the same of the largest model, and in short; of the most atoms, and with the last of them unnamed
//   k        no call: the limits in force
//   F N C    First, Next, Check; * the three in turn, p of the largest model
//   W X      a picture, its check; Y the two in turn
//   t        a text read, and judged with the model's room; 1 2 3 4 read alone, one of the tables one entry short
//   u v w    a text with line feeds up to the limit; one beyond it; the same read alone, the nodes one short
//   r s      a formula's text read, and printed back; the same, the node space one short
//   a to f   the same of the text that a code of layers stands for:
//            a b  as many layers as the limit of nodes allows where a layer is one node, and one more; c d  where it is two nodes
//            e f  as many as the limit of the text allows, and one more
//   P S      a list of nodes printed; the same, the text space one short; K U a part of it; x y as many nots as there may be, one more
//   h        a formula on a line and a model's text, judged with the model's room; g i with line feeds up to the limit, one beyond it
//   q        a line of the label desk, labelled
//   m        no case: the code of a model for the cases behind it to change, in place of the base
use crate::asking::Question;
use crate::base::Rows;
use crate::judging::Model;
use crate::layers::Depth;
use crate::lines::{Call, Case};
use crate::reading::Table;
use crate::spaces::front;
use crate::table::piece;
use crate::{asking, formulas, judging, labels, largest, lines, picturing, reading};
use std::io;
use values::limits::{
    MOST_ATOMS, MOST_FORMULA, MOST_NODE_NUMBERS, MOST_NODES, MOST_TEXT, MOST_VERDICTS,
};

// A case that is a text with line feeds behind it.
// kept: by the letter, as in `text`.
fn padded<R: Print>(case: &Case<R>, letter: u8, text: &[u8]) -> io::Result<()> {
    let page = reading::page(text);
    match letter {
        b'u' => reading::asked(case, front(&page, MOST_TEXT), MOST_VERDICTS),
        b'v' => reading::asked(case, &page, MOST_VERDICTS),
        _ => reading::read(case, &page, Some(Table::Nodes)),
    }
}

// A case that is a text, judged with so much room.
// kept: by the letter of the case, which the stored cases have; an enum of the forty would be one more table beside these matches.
fn text<R: Print>(case: &Case<R>, letter: u8, text: &[u8], room: usize) -> io::Result<()> {
    match letter {
        b't' => reading::asked(case, text, room),
        b'u' | b'v' | b'w' => padded(case, letter, text),
        b'h' => formulas::judged(case, text, None, room),
        b'g' => formulas::judged(case, text, Some(MOST_TEXT), room),
        b'i' => formulas::judged(case, text, Some(MOST_TEXT + 1), room),
        _ => reading::read(case, text, Table::of(letter)),
    }
}

// A case that is a path question.
// kept: by the letter, as in `text`.
fn question<R: Print>(case: &Case<R>, letter: u8, rows: &Rows) -> io::Result<()> {
    let left = rows.bytes(b'P');
    let right = rows.bytes(b'Q');
    let question = Question {
        states: rows.one(b'S'),
        transitions: rows.entries(b'T'),
        left: front(&left, rows.one(b'P')),
        right: front(&right, rows.one(b'Q')),
        level: (rows.one(b'G') % 256) as u8,
    };
    let list = rows.entries(b'X');
    let start = rows.one(b'B');
    let room = rows.one(b'R');
    let ending = rows.one(b'D');
    match letter {
        b'F' => asking::first(case, question, start, room).map(|_| ()),
        b'N' => asking::next(case, question, list),
        b'C' => asking::check(case, question, list),
        b'W' => picturing::picture(case, question, start, room),
        b'X' => picturing::check(case, question, list, ending),
        b'Y' => {
            picturing::picture(case, question, start, room)?;
            picturing::check(case, question, list, ending)
        }
        _ => {
            asking::first(case, question, start, room)?;
            asking::next(case, question, list)?;
            asking::check(case, question, list)
        }
    }
}

// A case that is a model.
fn model<R: Print>(case: &Case<R>, call: Call, rows: &Rows) -> io::Result<()> {
    let labels = rows.bytes(b'L');
    let initial = rows.bytes(b'I');
    let model = Model {
        states: rows.one(b'S'),
        atoms: rows.one(b'A'),
        labels: front(&labels, rows.one(b'L')),
        initial: front(&initial, rows.one(b'I')),
        transitions: rows.entries(b'T'),
        nodes: rows.entries(b'N'),
        room: rows.one(b'V'),
    };
    judging::asked(case, call, &model)
}

// A case that is a model, a path question or a list of nodes.
// kept: by the letter, as in `text`.
fn rows<R: Print>(case: &Case<R>, letter: u8, rows: &Rows) -> io::Result<()> {
    let nodes = rows.entries(b'N');
    let node = rows.one(b'K');
    match letter {
        b'n' => model(case, Call::Night, rows),
        b'j' => model(case, Call::Judge, rows),
        b'P' => formulas::print(case, nodes, MOST_FORMULA),
        b'S' => formulas::print(case, nodes, MOST_FORMULA - 1),
        b'K' => formulas::print_part(case, nodes, node, MOST_FORMULA),
        b'U' => formulas::print_part(case, nodes, node, MOST_FORMULA - 1),
        _ => question(case, letter, rows),
    }
}

// kept: by the letter, as in `text`.
fn asked<R: Print>(case: &Case<R>, letter: u8, base: &[u8], code: &[u8]) -> io::Result<()> {
    match letter {
        b'l' => largest::largest(case, Call::Night),
        b'L' => largest::largest(case, Call::Judge),
        b'o' => largest::most_atoms(case, MOST_ATOMS as u16 - 1),
        b'O' => largest::most_atoms(case, 0),
        b'p' => largest::longest(case),
        b'x' => largest::nots(case, MOST_NODE_NUMBERS),
        b'y' => largest::nots(case, MOST_NODE_NUMBERS + 3),
        b'k' => lines::limits(case.rt),
        b'q' => labels::asked(case, code),
        b'r' => formulas::read(case, code, MOST_NODE_NUMBERS),
        b's' => formulas::read(case, code, MOST_NODE_NUMBERS - 1),
        b'a' => formulas::layered(case, Depth::Layers(MOST_NODES - 1), code),
        b'b' => formulas::layered(case, Depth::Layers(MOST_NODES), code),
        b'c' => formulas::layered(case, Depth::Layers((MOST_NODES - 1) / 2), code),
        b'd' => formulas::layered(case, Depth::Layers((MOST_NODES - 1) / 2 + 1), code),
        b'e' => formulas::layered(case, Depth::Fitting, code),
        b'f' => formulas::layered(case, Depth::OneMore, code),
        b'n' | b'j' | b'F' | b'N' | b'C' | b'*' | b'P' | b'S' | b'K' | b'U' | b'W'..=b'Y' => rows(
            case,
            letter,
            &Rows::changed(base, code),
        ),
        _ => text(case, letter, code, Rows::changed(base, b"").one(b'V')),
    }
}

// No table has as many cases.
const MOST_CASES: usize = 1000;

// Every case of a table, up to one without a letter.
pub(crate) fn run(rt: &impl Print, table: &[u8]) -> io::Result<()> {
    let mut parts = table.split(|byte| *byte == b'|');
    // before the first model the base is changed by what stands behind the most cases, in a table that is longer
    let mut base = piece(table, 3 * MOST_CASES, b'|');
    for _ in 0..MOST_CASES {
        let Some(&letter) = parts.next().unwrap_or(b"").last() else {
            return Ok(());
        };
        let name = parts.next().unwrap_or(b"");
        let code = parts.next().unwrap_or(b"");
        match letter {
            b'\n' => return Ok(()),
            b'm' => base = code,
            _ => asked(&Case { rt, name }, letter, base, code)?,
        }
    }
    Ok(())
}
