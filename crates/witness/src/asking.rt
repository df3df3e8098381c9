// The question put to a model: its text is judged, by its own nodes or by a formula's, and the rows come from the parts of the node that is
// asked about.
use crate::reasons::{Form, Reason, Rows};
use crate::telling::Until;
use crate::words::Wanted;
use crate::{table, telling, words};
use sheet::Sheet;
use std::io;
use values::limits::{
    MOST_LABELS, MOST_NODE_NUMBERS, MOST_STATES, MOST_TRANSITION_NUMBERS, MOST_VERDICTS,
};
use values::verdict::Verdict;

// The row of a node; where the verdict space has none, an empty list, which First and a picture refuse.
// kept: sheet and ctl cut a row out too, but each says something else where there is none: no line, a requires, an empty list.
fn row(states: usize, verdicts: &[u8], node: usize) -> &[u8] {
    let size = values::rows::row_size(states);
    let begin = node.saturating_mul(size);
    verdicts
        .get(begin..begin.saturating_add(size))
        .unwrap_or(&[])
}

// A row that is true everywhere, at the front of a space.
fn put_truth(states: usize, space: &mut [u8]) {
    if states <= MOST_STATES {
        let truth = [Verdict::TRUE.number(); MOST_STATES];
        values::rows::store_row(&truth[..states], space);
    }
}

// A model that was judged: its transitions, and the rows of the nodes.
#[derive(Drop)]
struct Judged<'a> {
    states: usize,
    transitions: &'a [u16],
    verdicts: &'a [u8],
}

impl<'a> Judged<'a> {
    fn row(&self, node: usize) -> &[u8] {
        row(self.states, self.verdicts, node)
    }

    // kept: form and wanted by themselves: one is the reason's and one the question's, and a struct of both would be opened in `Until::tell`.
    fn tell_both(
        &self,
        rt: &impl Print,
        left: &[u8],
        right: &[u8],
        form: Form,
        wanted: Wanted,
    ) -> io::Result<()> {
        let until = Until {
            states: self.states,
            transitions: self.transitions,
            left,
            right,
        };
        until.tell(rt, form, wanted)
    }

    // With true on the left.
    fn tell_right(
        &self,
        rt: &impl Print,
        right: &[u8],
        form: Form,
        wanted: Wanted,
    ) -> io::Result<()> {
        let mut truth = [0u8; MOST_STATES];
        put_truth(self.states, &mut truth);
        self.tell_both(rt, row(self.states, &truth, 0), right, form, wanted)
    }

    // A row that has no opposite is none, and a verdict space has no such row: nothing is told of one.
    fn tell_opposite(
        &self,
        rt: &impl Print,
        part: &[u8],
        form: Form,
        wanted: Wanted,
    ) -> io::Result<()> {
        let mut opposite = [0u8; MOST_STATES];
        if kripke::rows::opposite_row(self.states, part, &mut opposite) {
            self.tell_right(rt, row(self.states, &opposite, 0), form, wanted)?;
        }
        Ok(())
    }

    // The two rows that the reason is found with, and what is told of them.
    fn tell(&self, rt: &impl Print, reason: Reason, wanted: Wanted) -> io::Result<()> {
        let form = reason.form;
        match reason.rows {
            Rows::Own(left, right) => {
                self.tell_both(rt, self.row(left), self.row(right), form, wanted)
            }
            Rows::Part(part) => self.tell_right(rt, self.row(part), form, wanted),
            Rows::Opposite(part) => self.tell_opposite(rt, self.row(part), form, wanted),
        }
    }
}

// The model that was judged: its text is read once more, for the transitions and the nodes, in whose place a formula's come.
// kept: the number, if the word is one, beside the word: an enum of node and formula would be opened by the same three matches.
fn ask(
    rt: &impl Print,
    text: &[u8],
    word: &[u8],
    about: Option<usize>,
    verdicts: &[u8],
    wanted: Wanted,
) -> io::Result<()> {
    let mut labels = [0u8; MOST_LABELS];
    let mut initial = [0u8; MOST_STATES];
    let mut transitions = [0u16; MOST_TRANSITION_NUMBERS];
    let mut nodes = [0u16; MOST_NODE_NUMBERS];
    let read = text::read_model(
        text,
        &mut labels,
        &mut initial,
        &mut transitions,
        &mut nodes,
    );
    let Ok(counts) = read else {
        return Ok(());
    };
    let asked = table::reason_asked(rt, about, word, counts.nodes, &mut nodes, wanted.claim)?;
    let Some(reason) = asked else {
        return Ok(());
    };
    let end = counts.transitions.saturating_mul(2);
    let judged = Judged {
        states: counts.states,
        transitions: transitions.get(..end).unwrap_or(&[]),
        verdicts,
    };
    judged.tell(rt, reason, wanted)
}

fn judge(about: Option<usize>, text: &[u8], word: &[u8], verdicts: &mut [u8]) -> Sheet {
    match about {
        Some(_) => sheet::judge_text(text, verdicts),
        None => sheet::judge_formula(text, word, verdicts),
    }
}

// A word that is no number is a formula.
pub(crate) fn answer(rt: &impl Print, text: &[u8], word: &[u8], wanted: Wanted) -> io::Result<()> {
    let about = words::read(word);
    let mut verdicts = [0u8; MOST_VERDICTS];
    let sheet = judge(about, text, word, &mut verdicts);
    if sheet.number != 0 {
        return telling::refused(rt, sheet.number);
    }
    ask(rt, text, word, about, &verdicts, wanted)
}
