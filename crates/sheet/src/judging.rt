// A model that a text holds, read and judged.
ghost use Rattle.std.specs.Prelude.{◌≡◌};
ghost use Rattle.values.specs.Refusal.{number_of};
ghost use Rattle.sheet.specs.Answers.{refused_sheet, ModelJudged, Asked};
ghost use Rattle.sheet.specs.Inside.{HeldFits, TextHeld, model_of};

use crate::Sheet;
use text::Counts;
use values::limits::{MOST_LABELS, MOST_NODE_NUMBERS, MOST_STATES, MOST_TRANSITION_NUMBERS};
use values::refusal::Refusal;
use values::verdict::Verdict;

// The sheet of a refusal.
// kept: by name and with its clause; a From would be public, with a promise and must-fail edits of its own, for one place in nights.
pub(crate) fn refused(refusal: Refusal) -> Sheet
    ensures { result ≡ refused_sheet (number_of refusal) }
{
    Sheet {
        number: refusal.number(),
        states: 0,
        nodes: 0,
        model: Verdict::FALSE,
    }
}

// A model: how many of each it has, and the tables in whose fronts it stands.
// kept: tables of the largest sizes with their counts, since memory is fixed; text's struct of them is its own, and has a method with requires.
#[derive(Drop)]
pub(crate) struct Held {
    counts: Counts,
    labels: [u8; MOST_LABELS],
    initial: [u8; MOST_STATES],
    transitions: [u16; MOST_TRANSITION_NUMBERS],
    nodes: [u16; MOST_NODE_NUMBERS],
}

impl Held {
    // No model yet.
    pub(crate) fn empty() -> Held {
        Held {
            counts: Counts {
                states: 0,
                atoms: 0,
                transitions: 0,
                nodes: 0,
            },
            labels: [0; MOST_LABELS],
            initial: [0; MOST_STATES],
            transitions: [0; MOST_TRANSITION_NUMBERS],
            nodes: [0; MOST_NODE_NUMBERS],
        }
    }

    // Reads the model that a text holds.
    pub(crate) fn read(&mut self, text: &[u8]) -> Result<(), Refusal>
        ensures { TextHeld text.now self.new result }
    {
        self.counts = text::read_model(
            text,
            &mut self.labels,
            &mut self.initial,
            &mut self.transitions,
            &mut self.nodes,
        )?;
        Ok(())
    }

    // Judges it into the verdict space.
    pub(crate) fn judge(&self, verdicts: &mut [u8]) -> Sheet
        requires { HeldFits self.now }
        ensures { ModelJudged (model_of self.now) verdicts.old verdicts.new result }
    {
        let counts = self.counts;
        let labels_end = counts.states * counts.atoms;
        let transitions_end = 2 * counts.transitions;
        let nodes_end = 3 * counts.nodes;
        let answer = ctl::judge(
            counts.states,
            counts.atoms,
            &self.labels[..labels_end],
            &self.initial[..counts.states],
            &self.transitions[..transitions_end],
            &self.nodes[..nodes_end],
            verdicts,
        );
        match answer {
            Ok(model) => Sheet {
                number: 0,
                states: counts.states,
                nodes: counts.nodes,
                model,
            },
            Err(refusal) => refused(refusal),
        }
    }

    // Judges a formula's text on it: the formula's nodes come in place of the model's own.
    pub(crate) fn judge_formula(&mut self, formula: &[u8], verdicts: &mut [u8]) -> Sheet
        requires { HeldFits self.old }
        ensures { Asked (model_of self.old) formula.now verdicts.old verdicts.new result }
    {
        match formula::read_formula(formula, &mut self.nodes) {
            Ok(n) => {
                self.counts.nodes = n;
                self.judge(verdicts)
            }
            Err(unread) => refused(unread),
        }
    }
}
