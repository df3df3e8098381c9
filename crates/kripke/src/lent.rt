// A graph that is not refused, lent with its beginnings: what the type holds no function needs to ask.
ghost use Rattle.std.specs.Prelude.{◌≡◌};
ghost use Rattle.kripke.specs.Answers.{targets};
ghost use Rattle.kripke.specs.Inside.{Ready, Ready-prop};
ghost use Rattle.kripke.specs.Transitions.{succs};

// Transitions of so many states, and where those of each state begin.
#[derive(Clone, Copy)]
pub struct Graph<'a> {
    pub states: usize,
    pub transitions: &'a [u16],
    pub begins: &'a [u16],
    pub ghost ready: { Ready states transitions.now begins.now } by { Ready-prop states transitions.now begins.now },
}

// Where the transitions of a part of the list lead, one after the other.
#[derive(Clone, Copy)]
pub struct Ends<'a> {
    pairs: &'a [u16],
}

impl<'a> Iterator for Ends<'a> {
    ghost use Rattle.std.specs.Iterator.{YieldsFirst, item_count};

    type Item = usize;

    ghost next_gives = { YieldsFirst (λ s. targets s.pairs.now) };

    ghost remaining = { item_count (λ s. targets s.pairs.now) };

    fn next(&mut self) -> Option<usize> {
        if self.pairs.len() < 2 {
            return None;
        }
        let to = self.pairs[1] as usize;
        self.pairs = &self.pairs[2..];
        Some(to)
    }
}

impl<'a> Graph<'a> {
    // The states that s has a transition to, ascending; none where s is no state.
    pub fn successors(&self, s: usize) -> Ends<'a>
        ensures { targets result.pairs.now ≡ succs self.now.transitions.now s }
    {
        if self.states <= s {
            return Ends { pairs: &[] };
        }
        let begin = self.begins[s] as usize;
        let end = self.begins[s + 1] as usize;
        Ends {
            pairs: &self.transitions[2 * begin..2 * end],
        }
    }
}
