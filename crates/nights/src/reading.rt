// Texts asked: read by `read_model`, and judged by `judge_text`.
ghost use Rattle.std.specs.Prelude.{◌<◌, ◌≤◌};

use crate::judging;
use crate::lines::{Call, Case, Lent};
use crate::spaces::{PATTERN, PATTERN_NUMBER, kept};
use std::io;
use text::Counts;
use values::limits::{
    MOST_LABELS, MOST_NODE_NUMBERS, MOST_STATES, MOST_TEXT, MOST_TRANSITION_NUMBERS, MOST_VERDICTS,
};
use values::refusal::Refusal;

// The tables that are lent, of which one may be too short.
#[derive(Clone, Copy, PartialEq, Eq)]
pub(crate) enum Table {
    Labels,
    Initial,
    Transitions,
    Nodes,
}

impl Table {
    // The table that a case's letter, a digit, names.
    pub(crate) fn of(letter: u8) -> Option<Table> {
        match letter % 16 {
            1 => Some(Table::Labels),
            2 => Some(Table::Initial),
            3 => Some(Table::Transitions),
            4 => Some(Table::Nodes),
            _ => None,
        }
    }

    // How long a table is lent: one entry short where it is the one that is too short.
    fn lent(self, most: usize, short: Option<Table>) -> usize
        requires { 0 < most }
        ensures { result ≤ most }
    {
        if short == Some(self) { most - 1 } else { most }
    }
}

// kept: the tables of text and sheet again: theirs stand within, with methods that have requires, which no public function has.
#[derive(Drop)]
struct Tables {
    labels: [u8; MOST_LABELS],
    initial: [u8; MOST_STATES],
    transitions: [u16; MOST_TRANSITION_NUMBERS],
    nodes: [u16; MOST_NODE_NUMBERS],
}

impl Tables {
    fn patterned() -> Tables {
        Tables {
            labels: [PATTERN; MOST_LABELS],
            initial: [PATTERN; MOST_STATES],
            transitions: [PATTERN_NUMBER; MOST_TRANSITION_NUMBERS],
            nodes: [PATTERN_NUMBER; MOST_NODE_NUMBERS],
        }
    }

    // A text read into tables of which one may be lent too short: the tables, and what reading answers.
    fn of_text(text: &[u8], short: Option<Table>) -> (Tables, Result<Counts, Refusal>) {
        let Tables {
            mut labels,
            mut initial,
            mut transitions,
            mut nodes,
        } = Tables::patterned();
        let answer = text::read_model(
            text,
            &mut labels[..Table::Labels.lent(MOST_LABELS, short)],
            &mut initial[..Table::Initial.lent(MOST_STATES, short)],
            &mut transitions[..Table::Transitions.lent(MOST_TRANSITION_NUMBERS, short)],
            &mut nodes[..Table::Nodes.lent(MOST_NODE_NUMBERS, short)],
        );
        let tables = Tables {
            labels,
            initial,
            transitions,
            nodes,
        };
        (tables, answer)
    }

    // Whether the tables hold the pattern behind what was filled.
    fn kept(&self, filled: Counts) -> bool {
        let before = Tables::patterned();
        kept(
            &self.labels,
            &before.labels,
            filled.states.saturating_mul(filled.atoms),
        ) && kept(&self.initial, &before.initial, filled.states)
            && kept(
                &self.transitions,
                &before.transitions,
                filled.transitions.saturating_mul(2),
            )
            && kept(&self.nodes, &before.nodes, filled.nodes.saturating_mul(3))
    }
}

const NOTHING: Counts = Counts {
    states: 0,
    atoms: 0,
    transitions: 0,
    nodes: 0,
};

// A text read, with one table too short or none: what reading answers, and whether the tables stayed, or what is behind their fronts.
pub(crate) fn read<R: Print>(case: &Case<R>, text: &[u8], short: Option<Table>) -> io::Result<()> {
    let (tables, answer) = Tables::of_text(text, short);
    case.begin(Call::Read)?;
    match answer {
        Err(refusal) => {
            case.answer(refusal.number())?;
            case.kept(Lent::Tables, tables.kept(NOTHING))
        }
        Ok(counts) => {
            print!(case.rt;
                "states={} atoms={} edges={} nodes={}",
                counts.states, counts.atoms, counts.transitions, counts.nodes
            )?;
            case.kept(Lent::Rest, tables.kept(counts))
        }
    }
}

// A text read, and judged with so much room.
pub(crate) fn asked<R: Print>(case: &Case<R>, text: &[u8], room: usize) -> io::Result<()> {
    read(case, text, None)?;
    let mut space = [PATTERN; MOST_VERDICTS];
    let sheet = sheet::judge_text(text, &mut space[..room.min(MOST_VERDICTS)]);
    judging::told(case, Call::Text, sheet, &space)
}

// A text with line feeds behind it, up to one beyond the limit.
pub(crate) fn page(text: &[u8]) -> [u8; MOST_TEXT + 1] {
    let mut page = [b'\n'; MOST_TEXT + 1];
    let n = text.len().min(page.len());
    page[..n].copy_from_slice(&text[..n]);
    page
}
