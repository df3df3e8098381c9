// A question on tables that are not refused, lent with a value for each state. What the type holds no function needs to ask.
use kripke::lent::Graph;
use values::limits::MOST_STATES;

// The graph, and the left and the right values.
// kept: the question of paths without its level: one struct for both would carry a level that no picture has.
#[derive(Clone, Copy)]
pub(crate) struct Question<'a> {
    pub(crate) graph: Graph<'a>,
    pub(crate) left: &'a [u8; MOST_STATES],
    pub(crate) right: &'a [u8; MOST_STATES],
}
