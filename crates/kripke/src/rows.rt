// The row "not" of a row, as it is stored.
ghost use Rattle.std.specs.Prelude.{ℕ, ◌≤◌, length};
ghost use Rattle.lists.specs.Entries.{at};
ghost use Rattle.lists.specs.Rows.{Filled};
ghost use Rattle.values.specs.Values.{neg};
ghost use Rattle.kripke.specs.Answers.{OppositeStored};

use values::limits::MOST_STATES;
use values::rows::{read_row, store_row};
use values::verdict::Verdict;

// Not the value, at each of so many states.
// kept: the twin of ctl's deny_row, which goes by a Graph: here are states alone, and by them it would be a public function with a requires.
fn deny(states: usize, values: &[u8], out: &mut [u8])
    requires { (states ≤ length values.now) × (states ≤ length out.old) }
    ensures { Filled (λ (s : ℕ). neg (at values.now s)) states out.old out.new }
{
    for s in 0..states {
        out[s] = Verdict(values[s]).not().number();
    }
}

// At the front of a space, or that there is no such row or no room, and the space stays.
// kept: the answer is a yes or no that callers know as a bool, and nothing stands beside it
pub fn opposite_row(states: usize, stored: &[u8], space: &mut [u8]) -> bool
    ensures { OppositeStored states stored.now space.old space.new result }
{
    let Some(row) = read_row(states, stored) else {
        return false;
    };
    let mut denied = [0u8; MOST_STATES];
    deny(states, &row.values, &mut denied);
    store_row(&denied[..states], space)
}
