// The parts of a model, and all of it.
ghost use Rattle.std.specs.Prelude.{◌≡◌, ◌*◌, ◌≤◌, length, drop};
ghost use Rattle.values.specs.Limits.{most_states, most_atoms};
ghost use Rattle.values.specs.Refusal.{number_of};
ghost use Rattle.form.specs.Form.{listed};
ghost use Rattle.text.specs.Inside.{told, rows_text, labelled_text, labelled_in, ListRead, ListsRead, TextRead};

use super::Counts;
use super::cursor::{Cursor, Line};
use super::tables::Held;
use values::limits::{
    MOST_ATOMS, MOST_LABELS, MOST_NODE_NUMBERS, MOST_NODES, MOST_STATES, MOST_TRANSITION_NUMBERS,
    MOST_TRANSITIONS,
};
use values::refusal::Refusal;

impl Cursor {
    // The initial row and a line of labels a state. The answer carries the two counts on.
    fn rows(
        self,
        text: &[u8],
        states: u16,
        atoms: u16,
        labels: &mut [u8; MOST_LABELS],
        initial: &mut [u8; MOST_STATES],
    ) -> Line
        requires { (states ≤ most_states) × (atoms ≤ most_atoms) }
        ensures { told (labelled_in labels.new initial.new) text.now result
            ≡ rows_text states atoms (drop self.at text.now) }
    {
        let row = self.row_line(text, b"init=", b"01", states as usize, initial, 0);
        let Line::Read(_, _, c) = row else {
            return row;
        };
        let rest = c.label_lines(text, atoms as usize, states as usize, labels);
        let Line::Read(_, _, next) = rest else {
            return rest;
        };
        Line::Read(states, atoms, next)
    }

    // The states and atoms, which the answer carries, and what each state is.
    fn labelled(
        self,
        text: &[u8],
        labels: &mut [u8; MOST_LABELS],
        initial: &mut [u8; MOST_STATES],
    ) -> Line
        ensures { told (labelled_in labels.new initial.new) text.now result ≡ labelled_text (drop self.at text.now) }
    {
        let first = self.count_line(text, b"states=", 1, MOST_STATES, Refusal::StateCount);
        let Line::Read(s, _, c) = first else {
            return first;
        };
        let second = c.count_line(text, b"atoms=", 0, MOST_ATOMS, Refusal::AtomCount);
        let Line::Read(a, _, d) = second else {
            return second;
        };
        d.rows(text, s, a, labels, initial)
    }

    // A count from 1 to most, which the answer carries, and a line of W numbers each.
    // kept: what a list has (many, one, most, refusal) by itself: a struct would be made at two calls, to be opened here.
    fn listed<const W: usize>(
        self,
        text: &[u8],
        many: &[u8],
        one: &[u8],
        most: usize,
        refusal: Refusal,
        out: &mut [u16],
    ) -> Line
        requires { W * most ≤ length out.old }
        ensures { ListRead (listed many.now one.now W most (number_of refusal) (drop self.at text.now))
            text.now W most out.new result }
    {
        let line = self.count_line(text, many, 1, most, refusal);
        let Line::Read(n, _, c) = line else {
            return line;
        };
        let rest = c.number_lines::<W>(text, one, n as usize, out);
        let Line::Read(_, _, next) = rest else {
            return rest;
        };
        Line::Read(n, 0, next)
    }

    // The transitions and the nodes, whose counts the answer carries, and nothing after the last line.
    fn lists(
        self,
        text: &[u8],
        transitions: &mut [u16; MOST_TRANSITION_NUMBERS],
        nodes: &mut [u16; MOST_NODE_NUMBERS],
    ) -> Line
        ensures { ListsRead text.now (drop self.at text.now) transitions.new nodes.new result }
    {
        let first = self.listed::<2>(
            text,
            b"edges=",
            b"edge=",
            MOST_TRANSITIONS,
            Refusal::TransitionList,
            transitions,
        );
        let Line::Read(e, _, c) = first else {
            return first;
        };
        let second = c.listed::<3>(
            text,
            b"nodes=",
            b"node=",
            MOST_NODES,
            Refusal::NodeList,
            nodes,
        );
        let Line::Read(f, _, next) = second else {
            return second;
        };
        let at = next.at;
        if at < text.len() {
            return Line::Refused(Refusal::TextForm);
        }
        Line::Read(e, f, next)
    }
}

impl Held {
    // The whole text, into the fronts of the tables.
    pub(crate) fn read(&mut self, text: &[u8]) -> Result<Counts, Refusal>
        ensures { TextRead text.now self.new result }
    {
        let start = Cursor { at: 0 };
        let first = start.labelled(text, &mut self.labels, &mut self.initial);
        let (states, atoms, c) = first.accepted()?;
        let second = c.lists(text, &mut self.transitions, &mut self.nodes);
        let (edges, nodes, _) = second.accepted()?;
        Ok(Counts {
            states: states as usize,
            atoms: atoms as usize,
            transitions: edges as usize,
            nodes: nodes as usize,
        })
    }
}
