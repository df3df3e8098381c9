// Whether a list is a witness: it has an entry, and none is at fault.
ghost use Rattle.std.specs.Prelude.{◌≡◌, ◌<◌, length};
ghost use Rattle.lists.specs.Entries.{at};
ghost use Rattle.kripke.specs.Transitions.{succs};
ghost use Rattle.paths.specs.Inside.{has, unjoined};

use crate::question::Question;
use kripke::lent::Graph;

// Whether there is a transition from s to t.
fn joined(graph: &Graph, s: usize, t: usize) -> bool
    ensures { result ≡ has t (succs graph.now.transitions.now s) }
{
    graph.successors(s).any(|to| to == t)
}

// Whether entry i has an entry before it and no transition from it.
fn is_unjoined(graph: &Graph, path: &[u16], i: usize) -> bool
    requires { i < length path.now }
    ensures { result ≡ unjoined graph.now.transitions.now path.now i }
{
    if i == 0 {
        return false;
    }
    !joined(graph, path[i - 1] as usize, path[i] as usize)
}

impl<'a> Question<'a> {
    ghost use Rattle.paths.specs.Inside.{at_fault, Faultless};

    // Whether entry i is no state, has no transition from the one before it, or lacks the left value; at the last place, the right.
    fn is_fault(&self, path: &[u16], i: usize) -> bool
        requires { i < length path.now }
        ensures { result ≡ at_fault self.now.graph.states self.now.graph.transitions.now (at self.now.left.now) (at self.now.right.now) self.now.level path.now i }
    {
        let s = path[i] as usize;
        if self.graph.states <= s {
            return true;
        }
        if is_unjoined(&self.graph, path, i) {
            return true;
        }
        if i + 1 < path.len() {
            return self.left[s] < self.level;
        }
        self.right[s] < self.level
    }

    pub(crate) fn is_witness(&self, path: &[u16]) -> bool
        ensures { Faultless self.now.graph.states self.now.graph.transitions.now (at self.now.left.now) (at self.now.right.now) self.now.level path.now result }
    {
        if path.is_empty() {
            return false;
        }
        for i in 0..path.len() {
            if self.is_fault(path, i) {
                return false;
            }
        }
        true
    }
}
