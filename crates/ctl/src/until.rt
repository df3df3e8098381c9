// E and A by rounds of one step back, each one pass over the transitions.
ghost use Rattle.std.specs.Prelude.{◌≡◌, false, ◌<◌};
ghost use Rattle.lists.specs.Entries.{at};
ghost use Rattle.lists.specs.Rows.{Filled};
ghost use Rattle.values.specs.Values.{choose};
ghost use Rattle.kripke.specs.Until.{next, until};
ghost use Rattle.values.specs.Answers.{verdict};

use kripke::lent::Graph;
use values::limits::MOST_STATES;
use values::verdict::Verdict;

// An until's operands, and whether it asks of all paths.
#[derive(Clone, Copy)]
pub(crate) struct Until<'a> {
    pub(crate) graph: Graph<'a>,
    pub(crate) left: &'a [u8; MOST_STATES],
    pub(crate) right: &'a [u8; MOST_STATES],
    pub(crate) all: bool,
}

// The greater of two verdicts, or, for "all", the smaller.
// kept: the walk's quantifier as a bool, since the meaning of an until takes it so and one law holds for both
fn chosen(all: bool, a: Verdict, b: Verdict) -> Verdict
    ensures { result ≡ verdict (choose all a.0 b.0) }
{
    if all { a.and(b) } else { a.or(b) }
}

// The best of a row over a state's successors.
// kept: all as a bool, for the reason that `chosen` has.
pub(crate) fn next_at(graph: &Graph, row: &[u8; MOST_STATES], all: bool, s: usize) -> Verdict
    ensures { result ≡ verdict (next all graph.now.transitions.now row.now s) }
{
    let mut ends = graph.successors(s);
    let Some(first) = ends.next() else {
        return Verdict::FALSE;
    };
    let mut best = Verdict(row[first]);
    for t in ends {
        best = chosen(all, best, Verdict(row[t]));
    }
    best
}

// Copies the first values of a row and says whether that changed anything.
fn take_row(graph: &Graph, source: &[u8; MOST_STATES], row: &mut [u8; MOST_STATES]) -> bool
    ensures { Filled (at source.now) graph.now.states row.old row.new × (result ≡ false → row.new ≡ row.old) }
{
    let states = graph.states;
    if row[..states] == source[..states] {
        return false;
    }
    // entry by entry, so that an archive for C needs no memmove
    for s in 0..states {
        row[s] = source[s];
    }
    true
}

impl<'a> Until<'a> {
    ghost use Rattle.ctl.specs.Inside.{stepped};

    // One step back at a state: its right value, or its left value and the best that comes next.
    fn step_at(&self, row: &[u8; MOST_STATES], s: usize) -> Verdict
        requires { s < self.now.graph.states }
        ensures { result ≡ verdict (stepped self.now.all self.now.graph.transitions.now self.now.left.now self.now.right.now row.now s) }
    {
        let next = next_at(&self.graph, row, self.all, s);
        Verdict(self.right[s]).or(Verdict(self.left[s]).and(next))
    }

    // One round: one step back from the last round's row at each state.
    fn round(&self, row: &[u8; MOST_STATES], out: &mut [u8; MOST_STATES])
        ensures { Filled (stepped self.now.all self.now.graph.transitions.now self.now.left.now self.now.right.now row.now) self.now.graph.states out.old out.new }
    {
        for s in 0..self.graph.states {
            out[s] = self.step_at(row, s).number();
        }
    }

    // A round with its copy: the row becomes the next one; whether that changed anything.
    fn advance(&self, row: &mut [u8; MOST_STATES]) -> bool
        ensures { Filled (stepped self.now.all self.now.graph.transitions.now self.now.left.now self.now.right.now row.old) self.now.graph.states row.old row.new × (result ≡ false → row.new ≡ row.old) }
    {
        let mut scratch = [0u8; MOST_STATES];
        self.round(row, &mut scratch);
        take_row(&self.graph, &scratch, row)
    }

    // The row of the until at the front of a space: rounds from the right row on, until one changes nothing.
    pub(crate) fn put(&self, row: &mut [u8; MOST_STATES])
        ensures { Filled (until self.now.all self.now.graph.transitions.now self.now.left.now self.now.right.now self.now.graph.states) self.now.graph.states row.old row.new }
    {
        take_row(&self.graph, self.right, row);
        for k in 1..self.graph.states {
            if !self.advance(row) {
                return;
            }
        }
    }
}
