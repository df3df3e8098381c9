// The tables of a question about two rows: the refusals 1, 6 to 9 and 14, and what is read of them.
ghost use Rattle.lists.specs.Causes.{refusal_of};
ghost use Rattle.values.specs.Refusal.{Answers};
ghost use Rattle.kripke.specs.Refusals.{question_causes};
ghost use Rattle.kripke.specs.Answers.{TablesHold};

use crate::graph::read_transitions;
use values::limits::MOST_STATES;
use values::refusal::Refusal;
use values::rows::read_row;

// Where each state's transitions begin, and the values of both rows.
// kept: arrays for the most states, since memory is fixed, and one for each row, as rows are lent.
#[derive(Clone, Copy)]
pub struct Tables {
    pub begins: [u16; MOST_STATES + 1],
    pub left: [u8; MOST_STATES],
    pub right: [u8; MOST_STATES],
}

// The tables of a question read, or the refusal of lowest number that applies to them.
// kept: the tables one by one, as callers lend them, which may not change; what is read of them is one struct.
// Inlined, so that the tables are not copied once more out of the Result.
#[inline(always)]
pub fn read_tables(
    states: usize,
    transitions: &[u16],
    left: &[u8],
    right: &[u8],
) -> Result<Tables, Refusal>
    ensures { Answers (refusal_of (question_causes states transitions.now left.now right.now)) result (λ t. TablesHold states transitions.now left.now right.now t) }
{
    let graph = read_transitions(states, transitions)?;
    let Some(left_row) = read_row(states, left) else {
        return Err(Refusal::Row);
    };
    let Some(right_row) = read_row(states, right) else {
        return Err(Refusal::Row);
    };
    let begins = graph.begins;
    let left = left_row.values;
    let right = right_row.values;
    Ok(Tables {
        begins,
        left,
        right,
    })
}
