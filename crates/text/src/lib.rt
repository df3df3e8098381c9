// A model's text, read into four lent tables.
//
//   cursor   the reader's place, and what it reads within a line: a key, a number, symbols
//   lines    whole lines: a count, a row of symbols, w numbers; each lays its values into a table once it is accepted
//   sections the parts of a model, and all of it
//   tables   whether the lent tables are long enough, those that a model is read into, and symbols laid into one
//
// Crate form says what the form is and how a model is printed, specs/Answers what `read_model` promises.
#![tactic(auto)]

use values::limits::{
    MOST_LABELS, MOST_NODE_NUMBERS, MOST_STATES, MOST_TEXT, MOST_TRANSITION_NUMBERS,
};

mod cursor;
mod lines;
mod sections;
mod tables;

ghost use Rattle.text.specs.Answers.{tables, ModelRead};

use tables::{Held, too_short};
use values::refusal::Refusal;

// How many of each a model that was read has.
#[derive(Clone, Copy)]
pub struct Counts {
    pub states: usize,
    pub atoms: usize,
    pub transitions: usize,
    pub nodes: usize,
}

// Reads a model's text into the fronts of the four tables. A refusal changes none of them.
// kept: four tables side by side: what a caller lends may not change. Within, they are one struct.
pub fn read_model(
    text: &[u8],
    labels: &mut [u8],
    initial: &mut [u8],
    transitions: &mut [u16],
    nodes: &mut [u16],
) -> Result<Counts, Refusal>
    ensures { ModelRead text.now
        (tables labels.old initial.old transitions.old nodes.old)
        (tables labels.new initial.new transitions.new nodes.new) result }
{
    if too_short(labels.len(), initial.len(), transitions.len(), nodes.len()) {
        return Err(Refusal::TableSpace);
    }
    if MOST_TEXT < text.len() {
        return Err(Refusal::TextSize);
    }
    let mut held = Held {
        labels: [0; MOST_LABELS],
        initial: [0; MOST_STATES],
        transitions: [0; MOST_TRANSITION_NUMBERS],
        nodes: [0; MOST_NODE_NUMBERS],
    };
    let counts = held.read(text)?;
    held.hand_out(counts, labels, initial, transitions, nodes);
    Ok(counts)
}
