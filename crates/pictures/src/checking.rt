// Whether a list and its ending are a picture, by the check of `paths`: with the row "not right" on both sides it says at level 2 that the
// entries are states, joined by transitions, and the right value 0 at all of them.
ghost use Rattle.lists.specs.Entries.{at};
ghost use Rattle.pictures.specs.Inside.{Readable, Readable-prop};

use crate::Ending;
use values::limits::MOST_STATES;

// Transitions and the row "not right", which no check refuses.
#[derive(Clone, Copy)]
pub(crate) struct Denied<'a> {
    pub(crate) states: usize,
    pub(crate) transitions: &'a [u16],
    pub(crate) row: &'a [u8],
    pub(crate) ghost readable: { Readable states transitions.now row.now } by { Readable-prop states transitions.now row.now },
}

impl<'a> Denied<'a> {
    ghost use Rattle.pictures.specs.Inside.{Passing, Tells};
    ghost use Rattle.pictures.specs.Pictures.{EndsBy, LeadsBack};

    // kept: matched, and no unwrap_or: that such tables and such a row are not refused is shown in the arm of the refusal.
    fn passes(&self, path: &[u16]) -> bool
        ensures { Tells (Passing self.now.states self.now.transitions.now self.now.row.now path.now) result }
    {
        match paths::check(self.states, self.transitions, self.row, self.row, 2, path) {
            Ok(is) => is,
            Err(_) => false,
        }
    }

    // Whether place k is in the list and the last state has a transition to it.
    fn leads_back(&self, path: &[u16], k: usize) -> bool
        requires { Passing self.now.states self.now.transitions.now self.now.row.now path.now }
        ensures { Tells (LeadsBack self.now.transitions.now path.now k) result }
    {
        let n = path.len();
        if n <= k {
            return false;
        }
        self.passes(&[path[n - 1], path[k]])
    }

    // Whether a list passes and ends so, with these left values.
    pub(crate) fn ends(&self, left: &[u8; MOST_STATES], path: &[u16], ending: Ending) -> bool
        ensures { Tells (Passing self.now.states self.now.transitions.now self.now.row.now path.now × EndsBy self.now.transitions.now (at left.now) path.now ending) result }
    {
        if !self.passes(path) {
            return false;
        }
        match ending {
            Ending::Falls => left[path[path.len() - 1] as usize] == 0,
            Ending::Back(k) => self.leads_back(path, k),
        }
    }
}
