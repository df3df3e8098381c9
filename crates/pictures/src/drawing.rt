// A picture on tables that are not refused: the marks, the test of 16, and the walk from the start along the ways.
ghost use Rattle.std.specs.Prelude.{◌<◌};

use crate::Ending;
use crate::question::Question;
use values::limits::MOST_STATES;
use values::refusal::Refusal;

impl<'a> Question<'a> {
    ghost use Rattle.pictures.specs.Inside.{Drawing};

    pub(crate) fn draw(
        &self,
        start: usize,
        path: &mut [u16],
    ) -> Result<Option<(usize, Ending)>, Refusal>
        requires { start < self.now.graph.states }
        ensures { Drawing self.now.graph.states self.now.graph.transitions.now self.now.left.now self.now.right.now start path.old path.new result }
    {
        let mut marks = [false; MOST_STATES];
        let mut ways = [None; MOST_STATES];
        self.mark(&mut marks, &mut ways);
        if !marks[start] {
            return Ok(None);
        }
        if path.len() < self.graph.states {
            return Err(Refusal::PathSpace);
        }
        // for each state that was passed its place
        let mut places = [None; MOST_STATES];
        let mut s = start;
        let mut n: usize = 0;
        // kept: a `for` over the places would have an end that is never reached
        loop {
            path[n] = s as u16;
            places[s] = Some(n as u16);
            n += 1;
            if self.left[s] == 0 {
                return Ok(Some((n, Ending::Falls)));
            }
            s = ways[s].unwrap() as usize;
            let passed = places[s];
            if let Some(place) = passed {
                return Ok(Some((n, Ending::Back(place as usize))));
            }
        }
    }
}
