// States and transitions: the refusals 1 and 6 to 9, and where each state's transitions begin.
ghost use Rattle.std.specs.Prelude.{◌≡◌, ℕ, ◌+◌, ◌<◌, ◌≤◌, ◌||◌, length, eqb, leb};
ghost use Rattle.lists.specs.Entries.{at, any_below};
ghost use Rattle.lists.specs.Rows.{Filled};
ghost use Rattle.lists.specs.Causes.{refusal_of};
ghost use Rattle.values.specs.Limits.{most_transitions};
ghost use Rattle.kripke.specs.Transitions.{count, from, to, Ascending, first_out};
ghost use Rattle.kripke.specs.Refusals as refusals;
ghost use Rattle.kripke.specs.Inside as inside;
ghost use Rattle.kripke.specs.Refusals.{table_refusal};
ghost use Rattle.kripke.specs.Answers.{beginnings};
ghost use Rattle.values.specs.Refusal.{Answers, Refuses};

use values::limits::{MOST_STATES, MOST_TRANSITION_NUMBERS};
use values::refusal::Refusal;

// For each state where its transitions begin, and behind the last state how many there are. The rest is 0.
// kept: an array for the most states, since memory is fixed, a rule of the project.
#[derive(Clone, Copy)]
pub struct Transitions {
    pub begins: [u16; MOST_STATES + 1],
}

// One of the list's transitions; those from an earlier state come first, and then those to an earlier one.
#[derive(Clone, Copy, PartialEq, Eq, PartialOrd, Ord)]
struct Transition {
    from: u16,
    to: u16,
}

impl Transition {
    fn at(transitions: &[u16], k: usize) -> Transition
        requires { k < count transitions.now }
        ensures from { result.from ≡ from transitions.now k }
        ensures to { result.to ≡ to transitions.now k }
    {
        Transition {
            from: transitions[2 * k],
            to: transitions[2 * k + 1],
        }
    }

    // Whether an end is no state.
    fn leaves(self, states: usize) -> bool
        ensures { result ≡ (leb states self.from || leb states self.to) }
    {
        states <= self.from as usize || states <= self.to as usize
    }
}

// Whether transition k stands behind one that does not come before it.
fn falls(transitions: &[u16], k: usize) -> bool
    requires { k < count transitions.now }
    ensures { result ≡ refusals.falls transitions.now k }
{
    0 < k && Transition::at(transitions, k) <= Transition::at(transitions, k - 1)
}

// One pass over the transitions: each end is a state, and they ascend.
fn check_each(states: usize, transitions: &[u16]) -> Result<(), Refusal>
    ensures { Refuses (refusal_of (inside.scan_causes states transitions.now)) result }
{
    let mut fell = false;
    for k in 0..transitions.len() / 2 {
        if Transition::at(transitions, k).leaves(states) {
            return Err(Refusal::TransitionEnd);
        }
        if falls(transitions, k) {
            fell = true;
        }
    }
    if fell {
        return Err(Refusal::TransitionOrder);
    }
    Ok(())
}

#[tactic(auto, unfolding(crate::specs::Refusals::bad_count))]
fn bad_count(states: usize) -> bool
    ensures { result ≡ refusals.bad_count states }
{
    states == 0 || MOST_STATES < states
}

#[tactic(auto, unfolding(crate::specs::Refusals::bad_list))]
fn bad_list(transitions: &[u16]) -> bool
    ensures { result ≡ refusals.bad_list transitions.now }
{
    let n = transitions.len();
    n == 0 || MOST_TRANSITION_NUMBERS < n || n % 2 == 1
}

// Whether there may be so many states.
pub fn check_count(states: usize) -> Result<(), Refusal>
    ensures { Refuses (refusal_of (refusals.count_causes states)) result }
{
    if bad_count(states) {
        return Err(Refusal::StateCount);
    }
    Ok(())
}

// Whether a list may be that of the transitions, by its length.
fn check_list(transitions: &[u16]) -> Result<(), Refusal>
    ensures { Refuses (refusal_of (inside.list_causes transitions.now)) result }
{
    if bad_list(transitions) {
        return Err(Refusal::TransitionList);
    }
    Ok(())
}

// Where the transitions out of s begin.
// kept: halved by hand: of pairs cut by as_chunks partition_point would do, but the edits of four wrong halvings would have no place.
fn first_out(transitions: &[u16], s: usize) -> usize
    requires { Ascending transitions.now }
    ensures { result ≡ first_out transitions.now s }
{
    // before low every transition is from an earlier state, from high on none is
    let mut low: usize = 0;
    let mut high = transitions.len() / 2;
    while low < high {
        let middle = low + (high - low) / 2;
        let from = transitions[2 * middle] as usize;
        if from < s {
            low = middle + 1;
        } else {
            high = middle;
        }
    }
    low
}

// The beginnings of all states, and behind them the end of the last one's, at the front of a space.
fn fill_begins(states: usize, transitions: &[u16], begins: &mut [u16])
    requires { (states < length begins.old) × (count transitions.now ≤ most_transitions) × Ascending transitions.now }
    ensures { Filled (first_out transitions.now) (states + 1) begins.old begins.new }
{
    for s in 0..states + 1 {
        begins[s] = first_out(transitions, s) as u16;
    }
}

// Whether the transitions of some state end where they begin.
// kept: as the cause is stated, of a state's place and the next one's; of windows it would take a law that these are such pairs.
fn some_stuck(states: usize, begins: &[u16]) -> bool
    requires { states < length begins.now }
    ensures { result ≡ any_below (λ (s : ℕ). eqb (at begins.now s) (at begins.now (s + 1))) states }
{
    for s in 0..states {
        if begins[s] == begins[s + 1] {
            return true;
        }
    }
    false
}

// Where each state's transitions begin, or the refusal of lowest number that applies to the tables: 1 or 6 to 9.
pub fn read_transitions(states: usize, transitions: &[u16]) -> Result<Transitions, Refusal>
    ensures { Answers (table_refusal states transitions.now) result (λ t. t.begins ≡ beginnings states transitions.now) }
{
    check_count(states)?;
    check_list(transitions)?;
    check_each(states, transitions)?;
    let mut begins = [0u16; MOST_STATES + 1];
    fill_begins(states, transitions, &mut begins);
    if some_stuck(states, &begins) {
        return Err(Refusal::StuckState);
    }
    Ok(Transitions { begins })
}
