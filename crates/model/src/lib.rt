// A whole model: when it is refused, and where each state's transitions begin. What a model is stands in specs/.
//
//   refusals   the causes 2 to 5 and 10 to 13, and the lowest number of all
//   kinds      the kinds of nodes, and their numbers
//   naming     the cause 22: which atoms the nodes name
#![tactic(auto)]

pub mod kinds;
mod naming;
mod refusals;

ghost use Rattle.std.specs.Prelude.{◌≡◌};
ghost use Rattle.values.specs.Refusal.{Answers};
ghost use Rattle.kripke.specs.Answers.{beginnings};
ghost use Rattle.model.specs.Model.{as_model};
ghost use Rattle.model.specs.Refusals.{judge_refusal};

use kripke::graph::{Transitions, check_count, read_transitions};
use refusals::{check_labels, check_nodes};
use values::refusal::Refusal;

// kept: the tables one by one, as callers lend them, which may not change.
// For a verdict space of so many bytes: where each state's transitions begin, or the refusal of lowest number that applies.
pub fn examine(
    states: usize,
    atoms: usize,
    labels: &[u8],
    initial: &[u8],
    transitions: &[u16],
    nodes: &[u16],
    room: usize,
) -> Result<Transitions, Refusal>
    ensures { Answers (judge_refusal (as_model states atoms labels.now initial.now transitions.now nodes.now) room) result (λ t. t.begins ≡ beginnings states transitions.now) }
{
    check_count(states)?;
    check_labels(states, atoms, labels, initial)?;
    let table = read_transitions(states, transitions)?;
    check_nodes(states, atoms, nodes, room)?;
    Ok(table)
}
