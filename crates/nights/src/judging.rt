// Judging asked and told.
use crate::lines::{Call, Case, Lent};
use crate::spaces::{PATTERN, front, kept};
use sheet::Sheet;
use std::io;
use values::limits::{MOST_NODES, MOST_STATES, MOST_VERDICTS};
use values::refusal::Refusal;
use values::verdict::Verdict;

// A model with its nodes, and how many bytes of a verdict space are lent.
#[derive(Drop)]
pub(crate) struct Model<'a> {
    pub(crate) states: usize,
    pub(crate) atoms: usize,
    pub(crate) labels: &'a [u8],
    pub(crate) initial: &'a [u8],
    pub(crate) transitions: &'a [u16],
    pub(crate) nodes: &'a [u16],
    pub(crate) room: usize,
}

impl<'a> Model<'a> {
    // The number of the refusal that the model alone gets, or 0.
    // kept: the line tells 0 where there is no refusal, so a number is what is asked for.
    fn examined(&self) -> u8 {
        let answer = model::examine(
            self.states,
            self.atoms,
            self.labels,
            self.initial,
            self.transitions,
            self.nodes,
            self.room,
        );
        match answer {
            Ok(_) => 0,
            Err(refusal) => refusal.number(),
        }
    }

    fn judged(&self, verdicts: &mut [u8]) -> Result<Verdict, Refusal> {
        ctl::judge(
            self.states,
            self.atoms,
            self.labels,
            self.initial,
            self.transitions,
            self.nodes,
            verdicts,
        )
    }

    // What judging answers, as a text's answer would be.
    // kept: sheet makes its sheets within: shared, its makers would be public, with must-fail edits of their own, for this one place.
    fn sheet(&self, verdicts: &mut [u8]) -> Sheet {
        match self.judged(verdicts) {
            Ok(model) => Sheet {
                number: 0,
                states: self.states,
                nodes: self.nodes.len() / 3,
                model,
            },
            Err(refusal) => Sheet {
                number: refusal.number(),
                states: 0,
                nodes: 0,
                model: Verdict::FALSE,
            },
        }
    }
}

// Line k of an answer, without its line feed.
fn line(rt: &impl Print, sheet: Sheet, space: &[u8], k: usize) -> io::Result<()> {
    let mut line = [0u8; MOST_STATES + 16];
    let Ok(Some(n)) = sheet::write_line(sheet, space, k, &mut line) else {
        return Ok(());
    };
    rt.write_all(front(&line, n.saturating_sub(1)))
}

// The refusal, or the last row and the model's verdict.
fn tell<R: Print>(case: &Case<R>, call: Call, sheet: Sheet, space: &[u8]) -> io::Result<()> {
    case.begin(call)?;
    if sheet.number != 0 {
        return case.answer(sheet.number);
    }
    let last = sheet.nodes.min(MOST_NODES);
    line(case.rt, sheet, space, last)?;
    print!(case.rt; " ")?;
    line(case.rt, sheet, space, last + 1)
}

// Whether the verdict space stayed, or what is behind the rows.
fn tell_space<R: Print>(case: &Case<R>, sheet: Sheet, space: &[u8]) -> io::Result<()> {
    let what = if sheet.number == 0 {
        Lent::Rest
    } else {
        Lent::VerdictSpace
    };
    let end = sheet.nodes.saturating_mul(sheet.states);
    case.kept(what, kept(space, &[PATTERN; MOST_VERDICTS], end))
}

// What a call answered, and what of the verdict space stayed.
// kept: sheet and space by themselves: a struct of both would be made at each call, and opened in each line that is told.
pub(crate) fn told<R: Print>(
    case: &Case<R>,
    call: Call,
    sheet: Sheet,
    space: &[u8],
) -> io::Result<()> {
    tell(case, call, sheet, space)?;
    tell_space(case, sheet, space)
}

// The two public calls asked of a model, told in short where it is a night.
pub(crate) fn asked<R: Print>(case: &Case<R>, call: Call, model: &Model) -> io::Result<()> {
    let mut space = [PATTERN; MOST_VERDICTS];
    let examined = model.examined();
    let sheet = model.sheet(&mut space[..model.room.min(MOST_VERDICTS)]);
    tell(case, call, sheet, &space)?;
    if call == Call::Night {
        return println!(case.rt);
    }
    print!(case.rt; " refusal={examined}")?;
    tell_space(case, sheet, &space)
}
