// Where the rows lie in the verdict space: an operand's row is read and a node's row is written here alone.
ghost use Rattle.std.specs.Prelude.{◌≡◌, ◌+◌, ◌≤◌, length, take};
ghost use Rattle.values.specs.Rows.{row_size, row_begin};
ghost use Rattle.values.specs.Answers.{verdict};
ghost use Rattle.model.specs.Model.{node_count};
ghost use Rattle.ctl.specs.Rows.{over_initial};
ghost use Rattle.ctl.specs.Inside as inside;
ghost use Rattle.ctl.specs.Lent.{model_of};

use crate::nodes::Structure;
use model::kinds::Kind;
use values::limits::MOST_STATES;
use values::rows::Row;
use values::verdict::Verdict;

// The row of operand k of node i, by value: its values, the rest 0. What is no earlier node has zeros alone.
fn operand(states: usize, verdicts: &[u8], i: usize, k: usize) -> Row
    requires { inside.RowsFit states i verdicts.now }
    ensures { inside.OperandRead states verdicts.now i k result.values }
{
    if i <= k {
        return Row {
            values: [0u8; MOST_STATES],
        };
    }
    let size = values::rows::row_size(states);
    let begin = k * size;
    let end = begin + size;
    values::rows::read_row(states, &verdicts[begin..end]).unwrap()
}

// A finished row becomes row i of the verdict space.
// kept: a named form, the row copier over a lent part of the verdict space
fn put_row(states: usize, row: &[u8], i: usize, verdicts: &mut [u8])
    requires { (states ≤ length row.now) × (row_begin states i + row_size states ≤ length verdicts.old) }
    ensures { inside.RowPut states i (take states row.now) verdicts.old verdicts.new }
{
    let at = i * values::rows::row_size(states);
    values::rows::store_row(&row[..states], &mut verdicts[at..]);
}

// The row of node i, from the rows before it.
fn put_node(structure: &Structure, nodes: &[u16], i: usize, verdicts: &mut [u8])
    requires { inside.NodeReady (model_of structure.now) nodes.now i verdicts.old }
    ensures { inside.NodePut (model_of structure.now) nodes.now i verdicts.old verdicts.new }
{
    let states = structure.graph.states;
    let kind = Kind::of(nodes[3 * i]).unwrap_or(Kind::True);
    let number = nodes[3 * i + 1] as usize;
    let other = nodes[3 * i + 2] as usize;
    let left = operand(states, verdicts, i, number);
    let right = operand(states, verdicts, i, other);
    let mut row = [0u8; MOST_STATES];
    structure.node_row(kind, number, &left.values, &right.values, &mut row);
    put_row(states, &row, i, verdicts);
}

// The rows of all nodes, one after the other.
pub(crate) fn put_rows(structure: &Structure, nodes: &[u16], verdicts: &mut [u8])
    requires { inside.RowsReady (model_of structure.now) nodes.now verdicts.old }
    ensures { inside.RowsPut (model_of structure.now) nodes.now verdicts.old verdicts.new }
{
    for i in 0..nodes.len() / 3 {
        put_node(structure, nodes, i, verdicts);
    }
}

// The smallest of a row's values at the initial states.
fn over_initial(states: usize, initial: &[u8], row: &[u8]) -> Verdict
    requires { inside.InitialRow states initial.now row.now }
    ensures { result ≡ verdict (over_initial states initial.now row.now) }
{
    let mut found = Verdict::TRUE;
    for s in 0..states {
        if initial[s] == 1 {
            found = found.and(Verdict(row[s]));
        }
    }
    found
}

// The smallest of the last row's values at the initial states.
pub(crate) fn model_verdict(
    states: usize,
    initial: &[u8],
    nodes: &[u16],
    verdicts: &[u8],
) -> Verdict
    requires { inside.LastReady states (node_count nodes.now) initial.now verdicts.now }
    ensures { result ≡ verdict (over_initial states initial.now (inside.last_row states (node_count nodes.now) verdicts.now)) }
{
    let n = nodes.len() / 3;
    let last = operand(states, verdicts, n, n - 1);
    over_initial(states, initial, &last.values)
}
