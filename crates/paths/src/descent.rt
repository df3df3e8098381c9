// Down the distances: to the smallest next state, and on to the next larger list.
ghost use Rattle.std.specs.Prelude.{◌≡◌, ◌<◌, length, drop};
ghost use Rattle.lists.specs.Entries.{at};
ghost use Rattle.kripke.specs.Transitions.{succs};
ghost use Rattle.paths.specs.Inside.{first_fit, Layers, Layers-prop};

use crate::Further;
use kripke::lent::Graph;
use values::limits::MOST_STATES;
use values::refusal::Refusal;

// For each state how many entries a shortest witness from it has; 0 stands for none.
// kept: 0 and no Option: no witness has 0 entries, and the definitions count down by one from state to state, with 0 for none.
#[derive(Clone, Copy)]
pub(crate) struct Descent<'a> {
    pub(crate) graph: Graph<'a>,
    pub(crate) distances: &'a [u16; MOST_STATES],
    pub(crate) ghost layers: { Layers graph.states graph.transitions.now distances.now } by { Layers-prop graph.states graph.transitions.now distances.now },
}

// The smallest successor of s with the distance that is wanted and not below `above`, if there is one.
pub(crate) fn pick(
    graph: &Graph,
    distances: &[u16; MOST_STATES],
    s: usize,
    want: u16,
    above: usize,
) -> Option<usize>
    ensures { result ≡ first_fit distances.now want above (succs graph.now.transitions.now s) }
{
    for t in graph.successors(s) {
        if above <= t && distances[t] == want {
            return Some(t);
        }
    }
    None
}

impl<'a> Descent<'a> {
    ghost use Rattle.paths.specs.Inside.{Down, Descended, Advanced, FirstFound, NextFound};

    // start, and from there down to the smallest next state each time, to the end of the list.
    fn descend(&self, start: usize, path: &mut [u16])
        requires some { 0 < length path.old }
        requires fits { at self.now.distances.now start ≡ length path.old }
        ensures { Descended self.now.graph.transitions.now (at self.now.distances.now) start path.new }
    {
        path[0] = start as u16;
        let n = path.len();
        let mut s = start;
        for i in 1..n {
            s = pick(&self.graph, self.distances, s, (n - i) as u16, 0).unwrap();
            path[i] = s as u16;
        }
    }

    // On to the next larger list, by the last place that has a larger state; false and unchanged where there is none.
    fn advance(&self, path: &mut [u16]) -> bool
        requires some { 0 < length path.old }
        requires down { Down self.now.graph.transitions.now (at self.now.distances.now) (at path.old 0) (drop 1 path.old) }
        ensures { Advanced self.now.graph.transitions.now (at self.now.distances.now) path.old path.new result }
    {
        let n = path.len();
        for i in (1..n).rev() {
            let s = path[i - 1] as usize;
            let t = path[i] as usize;
            if let Some(u) = pick(&self.graph, self.distances, s, (n - i) as u16, t + 1) {
                self.descend(u, &mut path[i..]);
                return true;
            }
        }
        false
    }

    // First's answer, from the distances.
    pub(crate) fn first(&self, start: usize, path: &mut [u16]) -> Result<Option<usize>, Refusal>
        requires { start < self.now.graph.states }
        ensures { FirstFound self.now.graph.transitions.now (at self.now.distances.now) start path.old path.new result }
    {
        let n = self.distances[start] as usize;
        if n == 0 {
            return Ok(None);
        }
        if path.len() < n {
            return Err(Refusal::PathSpace);
        }
        self.descend(start, &mut path[..n]);
        Ok(Some(n))
    }

    // Next's answer, from the distances, for a list that is a witness.
    pub(crate) fn next(&self, path: &mut [u16]) -> Result<Further, Refusal>
        requires starts { (0 < length path.old) × (at path.old 0 < self.now.graph.states) }
        requires down { at self.now.distances.now (at path.old 0) ≡ length path.old → Down self.now.graph.transitions.now (at self.now.distances.now) (at path.old 0) (drop 1 path.old) }
        ensures { NextFound self.now.graph.transitions.now (at self.now.distances.now) path.old path.new result }
    {
        let n = self.distances[path[0] as usize] as usize;
        if n != path.len() {
            return Err(Refusal::NotShortest);
        }
        if self.advance(path) {
            return Ok(Further::Path);
        }
        Ok(Further::End)
    }
}
