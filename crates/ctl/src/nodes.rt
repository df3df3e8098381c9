// The row of one node from its operands' rows. A row has a place for each of the most states, and so for each state of a graph.
ghost use Rattle.std.specs.Prelude.{◌≡◌, false, ℕ, ◌+◌, ◌*◌, ◌<◌, ◌≤◌, length};
ghost use Rattle.lists.specs.Entries.{at};
ghost use Rattle.lists.specs.Rows.{Filled};
ghost use Rattle.kripke.specs.Until.{next, until, everywhere, opposite};
ghost use Rattle.values.specs.Values.{neg, top};
ghost use Rattle.model.specs.declared.kinds.Kind.TheVariants.{Atom};
ghost use Rattle.ctl.specs.Nodes.{node_value};
ghost use Rattle.ctl.specs.Inside.{Made};

use crate::until::{Until, next_at};
use kripke::lent::Graph;
use model::kinds::Kind;
use values::limits::MOST_STATES;
use values::verdict::Verdict;

// What a node's row goes by, its operands' rows apart: the graph, and a label for each state and atom.
#[derive(Clone, Copy)]
pub(crate) struct Structure<'a, 'b> {
    pub(crate) graph: Graph<'a>,
    pub(crate) atoms: usize,
    pub(crate) labels: &'b [u8],
    ghost labelled: { length labels.now ≡ graph.states * atoms },
    ghost small: { (i : ℕ) → at labels.now i ≤ top },
}

// At each state the value that a closure makes of both rows' values there.
// kept: graph, operands and row by themselves: a struct of them would be made anew for each row on the way to another, as in `always_row`.
fn map_row<F: Fn(Verdict, Verdict) -> Verdict>(
    graph: &Graph,
    left: &[u8; MOST_STATES],
    right: &[u8; MOST_STATES],
    row: &mut [u8; MOST_STATES],
    made: F,
)
    requires { F.IsAlwaysCallable made }
    ensures { Made (λ a b r. F.post made a b r) graph.now.states left.now right.now row.old row.new }
{
    for s in 0..graph.states {
        row[s] = made(Verdict(left[s]), Verdict(right[s])).number();
    }
}

// Constant true.
fn true_row(graph: &Graph, row: &mut [u8; MOST_STATES])
    ensures { Filled (λ (s : ℕ). top) graph.now.states row.old row.new }
{
    row[..graph.states].fill(Verdict::TRUE.number());
}

// Not a row.
fn deny_row(graph: &Graph, left: &[u8; MOST_STATES], row: &mut [u8; MOST_STATES])
    ensures { Filled (λ (s : ℕ). neg (at left.now s)) graph.now.states row.old row.new }
{
    map_row(graph, left, left, row, |value, _| value.not());
}

// EX: the greatest value among the successors.
fn next_row(graph: &Graph, left: &[u8; MOST_STATES], row: &mut [u8; MOST_STATES])
    ensures { Filled (next false graph.now.transitions.now left.now) graph.now.states row.old row.new }
{
    for s in 0..graph.states {
        row[s] = next_at(graph, left, false, s).number();
    }
}

// AX: not EX not.
fn all_next_row(graph: &Graph, left: &[u8; MOST_STATES], row: &mut [u8; MOST_STATES])
    ensures { Filled (λ (s : ℕ). neg (next false graph.now.transitions.now (opposite graph.now.states left.now) s)) graph.now.states row.old row.new }
{
    let mut turned = [0u8; MOST_STATES];
    deny_row(graph, left, &mut turned);
    let mut found = [0u8; MOST_STATES];
    next_row(graph, &turned, &mut found);
    deny_row(graph, &found, row);
}

// E, or A for "all".
// kept: all as a bool, for the reason that `chosen` has.
fn until_row(
    graph: &Graph,
    left: &[u8; MOST_STATES],
    right: &[u8; MOST_STATES],
    all: bool,
    row: &mut [u8; MOST_STATES],
)
    ensures { Filled (until all graph.now.transitions.now left.now right.now graph.now.states) graph.now.states row.old row.new }
{
    let question = Until {
        graph: *graph,
        left,
        right,
        all,
    };
    question.put(row);
}

// EF, or AF for "all": an until with true on the left.
// kept: all as a bool, for the reason that `chosen` has.
fn eventually_row(graph: &Graph, left: &[u8; MOST_STATES], all: bool, row: &mut [u8; MOST_STATES])
    ensures { Filled (until all graph.now.transitions.now (everywhere graph.now.states) left.now graph.now.states) graph.now.states row.old row.new }
{
    let mut truth = [0u8; MOST_STATES];
    true_row(graph, &mut truth);
    until_row(graph, &truth, left, all, row);
}

// AG, or EG for "all": not EF not, or not AF not.
// kept: all as a bool, for the reason that `chosen` has.
fn always_row(graph: &Graph, left: &[u8; MOST_STATES], all: bool, row: &mut [u8; MOST_STATES])
    ensures { Filled (λ (s : ℕ). neg (until all graph.now.transitions.now (everywhere graph.now.states) (opposite graph.now.states left.now) graph.now.states s)) graph.now.states row.old row.new }
{
    let mut turned = [0u8; MOST_STATES];
    deny_row(graph, left, &mut turned);
    let mut found = [0u8; MOST_STATES];
    eventually_row(graph, &turned, all, &mut found);
    deny_row(graph, &found, row);
}

impl<'a, 'b> Structure<'a, 'b> {
    ghost use Rattle.ctl.specs.Lent.{model_of};

    // An atom's labels.
    fn atom_row(&self, atom: usize, row: &mut [u8; MOST_STATES])
        requires { atom < self.now.atoms }
        ensures { Filled (λ (s : ℕ). at self.now.labels.now (s * self.now.atoms + atom)) self.now.graph.states row.old row.new }
    {
        for s in 0..self.graph.states {
            row[s] = self.labels[s * self.atoms + atom];
        }
    }

    // The row of a node of this kind. The number counts for an atom alone.
    #[tactic(auto, unfolding(crate::specs::Nodes::node_value))]
    pub(crate) fn node_row(
        &self,
        kind: Kind,
        number: usize,
        left: &[u8; MOST_STATES],
        right: &[u8; MOST_STATES],
        row: &mut [u8; MOST_STATES],
    )
        requires { kind ≡ Atom → number < self.now.atoms }
        ensures { Filled (node_value (model_of self.now) kind number left.now right.now) self.now.graph.states row.old row.new }
    {
        let graph = &self.graph;
        match kind {
            Kind::True => true_row(graph, row),
            Kind::Atom => self.atom_row(number, row),
            Kind::Not => deny_row(graph, left, row),
            Kind::And => map_row(graph, left, right, row, |l, r| l.and(r)),
            Kind::Or => map_row(graph, left, right, row, |l, r| l.or(r)),
            Kind::Implies => map_row(graph, left, right, row, |l, r| l.not().or(r)),
            Kind::Ex => next_row(graph, left, row),
            Kind::Eu => until_row(graph, left, right, false, row),
            Kind::Au => until_row(graph, left, right, true, row),
            Kind::Ax => all_next_row(graph, left, row),
            Kind::Ef => eventually_row(graph, left, false, row),
            Kind::Af => eventually_row(graph, left, true, row),
            Kind::Eg => always_row(graph, left, true, row),
            Kind::Ag => always_row(graph, left, false, row),
        }
    }
}
