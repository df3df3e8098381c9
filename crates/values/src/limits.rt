// The limits as specs/Limits.antt has them; `in_force` shows that the two agree.
ghost use Rattle.std.specs.Prelude.{◌≡◌};
ghost use Rattle.values.specs.Answers.{limits_in_force};

pub const MOST_STATES: usize = 256;

pub const MOST_ATOMS: usize = 32;

pub const MOST_TRANSITIONS: usize = 1024;

pub const MOST_NODES: usize = 64;

pub const MOST_TEXT: usize = 32768;

pub const MOST_FORMULA: usize = 4096;

pub const GREATEST_KIND: u16 = 13;

pub const MOST_LABELS: usize = MOST_STATES * MOST_ATOMS;

pub const MOST_TRANSITION_NUMBERS: usize = 2 * MOST_TRANSITIONS;

pub const MOST_NODE_NUMBERS: usize = 3 * MOST_NODES;

// Of the verdict space, in bytes: a stored row for each node.
pub const MOST_VERDICTS: usize = MOST_NODES * MOST_STATES;

#[derive(Clone, Copy)]
pub struct Limits {
    pub states: usize,
    pub atoms: usize,
    pub transitions: usize,
    pub nodes: usize,
    pub text: usize,
    pub formula: usize,
    pub kind: u16,
    pub labels: usize,
    pub transition_numbers: usize,
    pub node_numbers: usize,
    pub verdicts: usize,
}

pub fn in_force() -> Limits
    ensures { result ≡ limits_in_force }
{
    Limits {
        states: MOST_STATES,
        atoms: MOST_ATOMS,
        transitions: MOST_TRANSITIONS,
        nodes: MOST_NODES,
        text: MOST_TEXT,
        formula: MOST_FORMULA,
        kind: GREATEST_KIND,
        labels: MOST_LABELS,
        transition_numbers: MOST_TRANSITION_NUMBERS,
        node_numbers: MOST_NODE_NUMBERS,
        verdicts: MOST_VERDICTS,
    }
}
