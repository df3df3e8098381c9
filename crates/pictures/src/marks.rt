// The states where A(left U right) is false: a mark on each where the right value is 0, taken off in rounds where the left value is not 0
// and no successor has one, until a round takes off none. Each round is one pass over the transitions at most, which notes a way on for each
// state; while the state that it leads to has its mark, the later rounds go by the note.
ghost use Rattle.std.specs.Prelude.{◌≡◌, ◌<◌, false};

use crate::question::Question;
use values::limits::MOST_STATES;

impl<'a> Question<'a> {
    ghost use Rattle.pictures.specs.Inside.{Begun, WayOn, Stuck, Led, StateNoted, WaysNoted, Rounded, AllMarked};

    // Before the rounds.
    fn begin(&self, marks: &mut [bool; MOST_STATES])
        ensures { Begun self.now.graph.states self.now.right.now marks.new }
    {
        for s in 0..self.graph.states {
            marks[s] = self.right[s] == 0;
        }
    }

    // The way on from s: the last of its successors that have a mark.
    fn way(&self, marks: &[bool; MOST_STATES], s: usize) -> Option<u16>
        ensures { WayOn self.now.graph.states self.now.graph.transitions.now marks.now s result }
    {
        let mut way = None;
        for t in self.graph.successors(s) {
            if marks[t] {
                way = Some(t as u16);
            }
        }
        way
    }

    // Whether s has a mark, a left value that is not 0 and no way on. A way on is noted.
    fn is_stuck(
        &self,
        marks: &[bool; MOST_STATES],
        ways: &mut [Option<u16>; MOST_STATES],
        s: usize,
    ) -> bool
        requires state { s < self.now.graph.states }
        requires led { Led self.now.graph.transitions.now ways.old }
        ensures stuck { Stuck self.now.graph.states self.now.graph.transitions.now self.now.left.now marks.now s result }
        ensures noted { StateNoted self.now.graph.states self.now.graph.transitions.now self.now.left.now marks.now s ways.old ways.new }
        ensures led { Led self.now.graph.transitions.now ways.new }
    {
        if !marks[s] {
            return false;
        }
        if self.left[s] == 0 {
            return false;
        }
        if let Some(t) = ways[s] {
            if marks[t as usize] {
                return false;
            }
        }
        let way = self.way(marks, s);
        ways[s] = way;
        way.is_none()
    }

    // The marks of such states are taken off. Whether there was one.
    // Not inlined: merged with the loop over the rounds its own loop takes half as long again.
    #[inline(never)]
    fn round(&self, marks: &mut [bool; MOST_STATES], ways: &mut [Option<u16>; MOST_STATES]) -> bool
        requires { Led self.now.graph.transitions.now ways.old }
        ensures rounded { Rounded self.now.graph.states self.now.graph.transitions.now self.now.left.now marks.old marks.new result }
        ensures noted { result ≡ false → WaysNoted self.now.graph.states self.now.graph.transitions.now self.now.left.now marks.new ways.new self.now.graph.states }
        ensures led { Led self.now.graph.transitions.now ways.new }
    {
        let mut some = false;
        for s in 0..self.graph.states {
            if self.is_stuck(marks, ways, s) {
                marks[s] = false;
                some = true;
            }
        }
        some
    }

    // Rounds until one takes off no mark.
    pub(crate) fn mark(
        &self,
        marks: &mut [bool; MOST_STATES],
        ways: &mut [Option<u16>; MOST_STATES],
    )
        requires { Led self.now.graph.transitions.now ways.old }
        ensures marked { AllMarked self.now.graph.states self.now.graph.transitions.now self.now.left.now self.now.right.now marks.new }
        ensures noted { WaysNoted self.now.graph.states self.now.graph.transitions.now self.now.left.now marks.new ways.new self.now.graph.states }
    {
        self.begin(marks);
        while self.round(marks, ways) {}
    }
}
