// When a model is refused.
ghost use Rattle.std.specs.Prelude.{◌≡◌, ℕ, ◌<◌, ◌≤◌, ltb};
ghost use Rattle.lists.specs.Entries.{any_below};
ghost use Rattle.lists.specs.Causes.{refusal_of};
ghost use Rattle.values.specs.Limits.{most_atoms, most_states, greatest_kind};
ghost use Rattle.model.specs.Kinds.{uses, bound};
ghost use Rattle.model.specs.Model.{node_count, kind_at};
ghost use Rattle.model.specs.Refusals as causes;
ghost use Rattle.values.specs.Refusal.{Refuses};

use crate::kinds::Kind;
use crate::naming::some_unnamed;
use values::limits::{GREATEST_KIND, MOST_ATOMS, MOST_NODE_NUMBERS};
use values::refusal::Refusal;
use values::rows::{row_size, some_above, some_no_verdict};

// Whether the initial list has another length than the states, an entry above 1, or no 1.
fn bad_initial(states: usize, initial: &[u8]) -> bool
    ensures { result ≡ causes.bad_initial states initial.now }
{
    initial.len() != states || some_above(initial, 1) || !initial.contains(&1)
}

pub(crate) fn check_labels(
    states: usize,
    atoms: usize,
    labels: &[u8],
    initial: &[u8],
) -> Result<(), Refusal>
    requires { states ≤ most_states }
    ensures { Refuses (refusal_of (causes.label_causes states atoms labels.now initial.now)) result }
{
    if MOST_ATOMS < atoms {
        return Err(Refusal::AtomCount);
    }
    if labels.len() != states * atoms {
        return Err(Refusal::LabelCount);
    }
    if some_no_verdict(labels) {
        return Err(Refusal::Label);
    }
    if bad_initial(states, initial) {
        return Err(Refusal::Initial);
    }
    Ok(())
}

// Whether a kind is above the greatest.
// kept: kinds by number, since the list has numbers, also of no kind, and the cause is stated of them node by node: above the greatest.
fn some_kind_above(nodes: &[u16]) -> bool
    ensures { result ≡ any_below (λ (i : ℕ). ltb greatest_kind (kind_at nodes.now i)) (node_count nodes.now) }
{
    for i in 0..nodes.len() / 3 {
        if GREATEST_KIND < nodes[3 * i] {
            return true;
        }
    }
    false
}

// What the left and the right number of node i must stay below.
fn bounds(kind: Kind, atoms: usize, i: usize) -> (usize, usize)
    ensures { result ≡ (bound (uses kind).0 atoms i, bound (uses kind).1 atoms i) }
{
    match kind {
        Kind::True => (1, 1),
        Kind::Atom => (atoms, 1),
        Kind::And | Kind::Eu | Kind::Au | Kind::Or | Kind::Implies => (i, i),
        Kind::Not | Kind::Ex | Kind::Ax | Kind::Ef | Kind::Af | Kind::Eg | Kind::Ag => (i, 1),
    }
}

// Whether a number of node i is not below its bound. What is no kind uses no number.
fn bad_operand(atoms: usize, nodes: &[u16], i: usize) -> bool
    requires { i < node_count nodes.now }
    ensures { result ≡ causes.bad_operand atoms nodes.now i }
{
    // kept: a node is three numbers of the list, as the C interface lends it
    let kind = Kind::of(nodes[3 * i]).unwrap_or(Kind::True);
    let left = nodes[3 * i + 1] as usize;
    let right = nodes[3 * i + 2] as usize;
    let (left_bound, right_bound) = bounds(kind, atoms, i);
    left_bound <= left || right_bound <= right
}

fn some_bad_operand(atoms: usize, nodes: &[u16]) -> bool
    ensures { result ≡ any_below (causes.bad_operand atoms nodes.now) (node_count nodes.now) }
{
    for i in 0..nodes.len() / 3 {
        if bad_operand(atoms, nodes, i) {
            return true;
        }
    }
    false
}

// Whether the node list is empty, above the limit, or not three numbers a node.
#[tactic(auto, unfolding(crate::specs::Refusals::bad_nodes))]
fn bad_nodes(nodes: &[u16]) -> bool
    ensures { result ≡ causes.bad_nodes nodes.now }
{
    let n = nodes.len();
    n == 0 || MOST_NODE_NUMBERS < n || n % 3 != 0
}

pub(crate) fn check_nodes(
    states: usize,
    atoms: usize,
    nodes: &[u16],
    room: usize,
) -> Result<(), Refusal>
    requires { (states ≤ most_states) × (atoms ≤ most_atoms) }
    ensures { Refuses (refusal_of (causes.node_causes states atoms nodes.now room)) result }
{
    if bad_nodes(nodes) {
        return Err(Refusal::NodeList);
    }
    if some_kind_above(nodes) {
        return Err(Refusal::Kind);
    }
    if some_bad_operand(atoms, nodes) {
        return Err(Refusal::Operand);
    }
    if room < nodes.len() / 3 * row_size(states) {
        return Err(Refusal::VerdictSpace);
    }
    if some_unnamed(atoms, nodes) {
        return Err(Refusal::UnnamedAtom);
    }
    Ok(())
}
