// The tables: whether those that are lent are long enough, those that a model is read into, and symbols laid into one.
ghost use Rattle.std.specs.Prelude.{Ok, ◌≡◌, map, ◌+◌, ◌≤◌, length, take, drop};
ghost use Rattle.lists.specs.Rows.{laid};
ghost use Rattle.form.specs.Readers.{place_of};
ghost use Rattle.values.specs.Limits.{most_transition_numbers, most_node_numbers};
ghost use Rattle.text.specs.Answers.{tables, tables_due, too_short};
ghost use Rattle.text.specs.Inside.{Few, Enough, outcome_in};

use super::Counts;
use super::cursor::place_of;
use values::limits::{MOST_LABELS, MOST_NODE_NUMBERS, MOST_STATES, MOST_TRANSITION_NUMBERS};

// The tables that a text is read into. They are of the largest sizes, and what was read stands in their fronts.
// kept: tables of the largest sizes, of which Counts says how much counts, since memory is fixed, a rule of the project.
#[derive(Drop)]
pub(crate) struct Held {
    pub labels: [u8; MOST_LABELS],
    pub initial: [u8; MOST_STATES],
    pub transitions: [u16; MOST_TRANSITION_NUMBERS],
    pub nodes: [u16; MOST_NODE_NUMBERS],
}

// Whether a table of one of these lengths is too short for the largest model.
#[tactic(auto, unfolding(crate::specs::Answers::too_short))]
pub(crate) fn too_short(labels: usize, initial: usize, transitions: usize, nodes: usize) -> bool
    ensures { result ≡ too_short labels initial transitions nodes }
{
    labels < MOST_LABELS
        || initial < MOST_STATES
        || transitions < MOST_TRANSITION_NUMBERS
        || nodes < MOST_NODE_NUMBERS
}

impl Held {
    // A model of these counts, from the fronts of the tables into the fronts of those that are lent.
    pub(crate) fn hand_out(
        &self,
        counts: Counts,
        labels: &mut [u8],
        initial: &mut [u8],
        transitions: &mut [u16],
        nodes: &mut [u16],
    )
        requires few { Few counts }
        requires room { Enough (length labels.old) (length initial.old) (length transitions.old) (length nodes.old) }
        ensures sizes { (length self.now.transitions ≡ most_transition_numbers) × (length self.now.nodes ≡ most_node_numbers) }
        ensures handed { tables labels.new initial.new transitions.new nodes.new
            ≡ tables_due (outcome_in self.now (Ok counts)) (tables labels.old initial.old transitions.old nodes.old) }
    {
        let s = counts.states;
        let l = counts.atoms * s;
        let t = 2 * counts.transitions;
        let n = 3 * counts.nodes;
        labels[..l].copy_from_slice(&self.labels[..l]);
        initial[..s].copy_from_slice(&self.initial[..s]);
        transitions[..t].copy_from_slice(&self.transitions[..t]);
        nodes[..n].copy_from_slice(&self.nodes[..n]);
    }
}

// The n symbols of a text from a place on, over what stands in out from another place on.
// kept: places in both lists, and no parts of them: what stands round a part of out each caller would have to say.
pub(crate) fn lay_symbols(
    text: &[u8],
    from: usize,
    signs: &[u8],
    n: usize,
    out: &mut [u8],
    to: usize,
)
    requires { (length signs.now ≤ 255) × (from + n ≤ length text.now) × (to + n ≤ length out.old) }
    ensures { out.new ≡ laid to (map (place_of signs.now) (take n (drop from text.now))) out.old }
{
    // kept: one index for both places: a zip with iter_mut leaves the loop's invariant open.
    for j in 0..n {
        let v = place_of(signs, text[from + j]);
        out[to + j] = v;
    }
}
