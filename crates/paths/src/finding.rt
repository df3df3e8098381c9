// First's and Next's answers, for tables that are not refused.
ghost use Rattle.std.specs.Prelude.{◌<◌};

use crate::Further;
use crate::descent::Descent;
use crate::question::Question;
use values::limits::MOST_STATES;
use values::refusal::Refusal;

impl<'a> Question<'a> {
    ghost use Rattle.paths.specs.Inside.{FirstWorked, NextWorked};

    // The smallest list from the start, by the distances.
    pub(crate) fn first(&self, start: usize, path: &mut [u16]) -> Result<Option<usize>, Refusal>
        requires { start < self.now.graph.states }
        ensures { FirstWorked self.now.graph.states self.now.graph.transitions.now self.now.left.now self.now.right.now self.now.level start path.old path.new result }
    {
        let mut distances = [0u16; MOST_STATES];
        self.measure(start, &mut distances);
        let descent = Descent {
            graph: self.graph,
            distances: &distances,
        };
        descent.first(start, path)
    }

    // The next larger list, by the distances, where the lent one is a witness.
    pub(crate) fn next(&self, path: &mut [u16]) -> Result<Further, Refusal>
        ensures { NextWorked self.now.graph.states self.now.graph.transitions.now self.now.left.now self.now.right.now self.now.level path.old path.new result }
    {
        if !self.is_witness(path) {
            return Err(Refusal::NotShortest);
        }
        let mut distances = [0u16; MOST_STATES];
        self.measure(path[0] as usize, &mut distances);
        let descent = Descent {
            graph: self.graph,
            distances: &distances,
        };
        descent.next(path)
    }
}
