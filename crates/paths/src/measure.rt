// For each state how many entries a shortest witness from it has, in rounds that are each one pass over the transitions.
ghost use Rattle.std.specs.Prelude.{◌≡◌, ◌<◌, length};
ghost use Rattle.lists.specs.Entries.{at};
ghost use Rattle.lists.specs.Rows.{Filled};

use crate::descent::pick;
use crate::question::Question;
use values::limits::MOST_STATES;

impl<'a> Question<'a> {
    ghost use Rattle.paths.specs.Inside.{at_once, Settled, Rounded, Measured};

    // 1 for a state whose right value is at least the level, 0 for any other number.
    fn at_once(&self, s: usize) -> u16
        ensures { result ≡ at_once self.now.graph.states (at self.now.right.now) self.now.level s }
    {
        if self.graph.states <= s {
            return 0;
        }
        if self.right[s] < self.level {
            return 0;
        }
        1
    }

    // Before the rounds: the witnesses of one entry.
    fn begin(&self, distances: &mut [u16; MOST_STATES])
        ensures { Filled (at_once self.now.graph.states (at self.now.right.now) self.now.level) (length distances.old) distances.old distances.new }
    {
        distances.fill(0);
        for s in 0..self.graph.states {
            distances[s] = self.at_once(s);
        }
    }

    // One state in round k: with no distance yet, a left value of at least the level and a successor of distance k it gets k + 1.
    fn settle(&self, distances: &mut [u16; MOST_STATES], s: usize, k: u16)
        requires { (s < self.now.graph.states) × (k < self.now.graph.states) }
        ensures { Settled self.now.graph.transitions.now (at self.now.left.now) self.now.level k s distances.old distances.new }
    {
        if distances[s] != 0 {
            return;
        }
        if self.left[s] < self.level {
            return;
        }
        let Some(_next) = pick(&self.graph, distances, s, k, 0) else {
            return;
        };
        distances[s] = k + 1;
    }

    // Round k: from all witnesses of up to k entries to those of k + 1.
    fn round(&self, distances: &mut [u16; MOST_STATES], k: u16)
        requires { (0 < k) × (k < self.now.graph.states) }
        ensures { Rounded self.now.graph.states self.now.graph.transitions.now self.now.left.now self.now.level k distances.old distances.new }
    {
        for s in 0..self.graph.states {
            self.settle(distances, s, k);
        }
    }

    // Rounds until the start has its distance, or until there were as many as states.
    // kept: that the start is a state, asked here and of both `first`: a start is one call's, and a struct of question and start would be made for that call alone.
    pub(crate) fn measure(&self, start: usize, distances: &mut [u16; MOST_STATES])
        requires { start < self.now.graph.states }
        ensures { Measured self.now.graph.states self.now.graph.transitions.now self.now.left.now self.now.right.now self.now.level start distances.new }
    {
        self.begin(distances);
        for k in 1..self.graph.states {
            if distances[start] != 0 {
                return;
            }
            self.round(distances, k as u16);
        }
    }
}
