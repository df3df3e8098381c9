// Judging: the rows of verdicts of a node list, and the model's verdict.
//
//   until   E and A by rounds of one step back, each one pass over the transitions
//   nodes   the row of one node from its operands' rows
//   rows    where the rows lie in the verdict space, and the verdict over the initial states
#![tactic(auto)]

mod nodes;
mod rows;
mod until;

ghost use Rattle.model.specs.Model.{as_model};
ghost use Rattle.ctl.specs.Answers.{Judging};

use kripke::lent::Graph;
use nodes::Structure;
use values::refusal::Refusal;
use values::verdict::Verdict;

// kept: the tables one by one, as the C interface lends them
// The rows stand in the verdict space and this is the model's verdict, or judging is refused and the space stays.
pub fn judge(
    states: usize,
    atoms: usize,
    labels: &[u8],
    initial: &[u8],
    transitions: &[u16],
    nodes: &[u16],
    verdicts: &mut [u8],
) -> Result<Verdict, Refusal>
    ensures { Judging (as_model states atoms labels.now initial.now transitions.now nodes.now) verdicts.old verdicts.new result }
{
    let room = verdicts.len();
    let table = model::examine(states, atoms, labels, initial, transitions, nodes, room)?;
    let graph = Graph {
        states,
        transitions,
        begins: &table.begins,
    };
    let structure = Structure {
        graph,
        atoms,
        labels,
    };
    rows::put_rows(&structure, nodes, verdicts);
    Ok(rows::model_verdict(states, initial, nodes, verdicts))
}
