// A question on tables that are not refused, lent with a value for each state. What the type holds no function needs to ask.
ghost use Rattle.std.specs.Prelude.{◌≡◌};
ghost use Rattle.kripke.specs.Inside.{Ready};

use kripke::lent::Graph;
use kripke::tables::Tables;
use values::limits::MOST_STATES;

// The graph, the left and the right values, and the level that a witness reaches.
// kept: the level as its number, 1 or 2, which each value is compared with.
#[derive(Clone, Copy)]
pub(crate) struct Question<'a> {
    pub(crate) graph: Graph<'a>,
    pub(crate) left: &'a [u8; MOST_STATES],
    pub(crate) right: &'a [u8; MOST_STATES],
    pub(crate) level: u8,
}

impl<'a> Question<'a> {
    // On tables as they were read.
    pub(crate) fn of(
        tables: &'a Tables,
        states: usize,
        transitions: &'a [u16],
        level: u8,
    ) -> Question<'a>
        requires { Ready states transitions.now tables.now.begins }
        ensures states { result.graph.states ≡ states }
        ensures transitions { result.graph.transitions.now ≡ transitions.now }
        ensures left { result.left.now ≡ tables.now.left }
        ensures right { result.right.now ≡ tables.now.right }
        ensures level { result.level ≡ level }
    {
        let graph = Graph {
            states,
            transitions,
            begins: &tables.begins,
        };
        Question {
            graph,
            left: &tables.left,
            right: &tables.right,
            level,
        }
    }
}
