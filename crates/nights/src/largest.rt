// As many states, atoms, transitions and nodes as there may be.
use crate::asking::Question;
use crate::judging::Model;
use crate::lines::{Call, Case};
use crate::spaces::front;
use crate::{asking, formulas, judging};
use model::kinds::Kind;
use std::{array, io};
use values::limits::{
    MOST_ATOMS, MOST_FORMULA, MOST_NODE_NUMBERS, MOST_STATES, MOST_TRANSITION_NUMBERS,
    MOST_VERDICTS,
};

fn narrow(number: usize) -> u16 {
    (number % 65536) as u16
}

// Number i of the transitions: four out of each state, to itself and the three next ones, the last states to the last four.
fn transition(i: usize) -> u16 {
    let s = i / 8;
    let last = MOST_STATES - 4;
    if i % 2 == 0 {
        return narrow(s);
    }
    narrow(s.min(last) + i / 2 % 4)
}

fn transitions() -> [u16; MOST_TRANSITION_NUMBERS] {
    array::from_fn(transition)
}

// Number i of a list of nodes, of which this one has it.
fn entry(i: usize, kind: Kind, left: usize, right: usize) -> u16 {
    match i % 3 {
        0 => kind.number(),
        1 => narrow(left),
        _ => narrow(right),
    }
}

// Number i of the nodes: two atoms, and then E and A in turn, each over atom 0 and the node before.
fn until(i: usize) -> u16 {
    let node = i / 3;
    if node < 2 {
        return entry(i, Kind::Atom, node, 0);
    }
    let kind = if node % 2 == 0 { Kind::Eu } else { Kind::Au };
    entry(i, kind, 0, node - 1)
}

// All atoms, and behind them each in conjunction with the node before.
fn conjunct(i: usize) -> u16 {
    let node = i / 3;
    if node < MOST_ATOMS {
        return entry(i, Kind::Atom, node, 0);
    }
    entry(i, Kind::And, node % MOST_ATOMS, node - 1)
}

// True, and behind it each the not of the node before.
fn not(i: usize) -> u16 {
    let node = i / 3;
    if node == 0 {
        return entry(i, Kind::True, 0, 0);
    }
    entry(i, Kind::Not, node - 1, 0)
}

// Label i: atom 0 is true but unknown at every seventh state; atom 1 is true at the last state alone.
fn label(i: usize) -> u8 {
    let s = i / 2;
    if i % 2 == 0 {
        return if s % 7 == 6 { 1 } else { 2 };
    }
    if s == MOST_STATES - 1 { 2 } else { 0 }
}

// As many states, transitions and nodes as there may be, all nodes but two untils.
pub(crate) fn largest<R: Print>(case: &Case<R>, call: Call) -> io::Result<()> {
    let labels: [u8; 2 * MOST_STATES] = array::from_fn(label);
    let nodes: [u16; MOST_NODE_NUMBERS] = array::from_fn(until);
    let transitions = transitions();
    let model = Model {
        states: MOST_STATES,
        atoms: 2,
        labels: &labels,
        initial: &[1; MOST_STATES],
        transitions: &transitions,
        nodes: &nodes,
        room: MOST_VERDICTS,
    };
    judging::asked(case, call, &model)
}

// The same states and transitions asked for paths: from state 0 three states on at each step, and no other way.
pub(crate) fn longest<R: Print>(case: &Case<R>) -> io::Result<()> {
    let transitions = transitions();
    let mut right = [0u8; MOST_STATES];
    right[MOST_STATES - 1] = 2;
    let question = Question {
        states: MOST_STATES,
        transitions: &transitions,
        left: &[2; MOST_STATES],
        right: &right,
        level: 2,
    };
    let path = asking::first(case, question, 0, MOST_STATES)?;
    let list = front(&path, (MOST_STATES - 1) / 3 + 1);
    asking::next(case, question, list)?;
    asking::check(case, question, list)
}

// One state with as many atoms as there may be, the last of them unknown: so is the conjunction of all. The last atom's node names this one.
pub(crate) fn most_atoms<R: Print>(case: &Case<R>, last: u16) -> io::Result<()> {
    let mut labels = [2u8; MOST_ATOMS];
    let mut nodes: [u16; 6 * MOST_ATOMS] = array::from_fn(conjunct);
    labels[MOST_ATOMS - 1] = 1;
    nodes[3 * MOST_ATOMS - 2] = last;
    let model = Model {
        states: 1,
        atoms: MOST_ATOMS,
        labels: &labels,
        initial: &[1],
        transitions: &[0, 0],
        nodes: &nodes,
        room: 2 * MOST_ATOMS,
    };
    judging::asked(case, Call::Judge, &model)
}

// So many numbers of a list of nots, beginning with true, printed.
pub(crate) fn nots<R: Print>(case: &Case<R>, count: usize) -> io::Result<()> {
    let nodes: [u16; MOST_NODE_NUMBERS + 3] = array::from_fn(not);
    formulas::print(case, front(&nodes, count), MOST_FORMULA)
}
