// The node that is asked about, in the table that was judged: the model's nodes, or those of a formula, whose last one is the whole.
use crate::reasons::Reason;
use crate::words::Claim;
use crate::{reasons, telling};
use std::io;

// Whether a model of n nodes has this one.
fn own(rt: &impl Print, node: usize, n: usize) -> io::Result<Option<usize>> {
    if node < n {
        return Ok(Some(node));
    }
    println!(rt; "no question: the model has no such node")?;
    Ok(None)
}

// The last node of a formula, whose nodes come into the table.
fn whole(rt: &impl Print, word: &[u8], nodes: &mut [u16]) -> io::Result<Option<usize>> {
    match formula::read_formula(word, nodes) {
        Ok(n) => Ok(n.checked_sub(1)),
        Err(refusal) => {
            telling::refused(rt, refusal.number())?;
            Ok(None)
        }
    }
}

// kept: how many nodes the model has beside the whole table, since a formula's nodes come into all of it.
fn place(
    rt: &impl Print,
    about: Option<usize>,
    word: &[u8],
    n: usize,
    nodes: &mut [u16],
) -> io::Result<Option<usize>> {
    match about {
        Some(node) => own(rt, node, n),
        None => whole(rt, word, nodes),
    }
}

// Where the kind has no reason for the claim, that is said.
fn or_said(
    rt: &impl Print,
    reason: Option<Reason>,
    about: Option<usize>,
) -> io::Result<Option<Reason>> {
    if reason.is_none() {
        match about {
            Some(_) => println!(rt; "no question: this node has no such reason")?,
            None => println!(rt; "no question: this formula has no such reason")?,
        }
    }
    Ok(reason)
}

// The reason for a claim about the node that is asked about, or why there is none said.
pub(crate) fn reason_asked(
    rt: &impl Print,
    about: Option<usize>,
    word: &[u8],
    n: usize,
    nodes: &mut [u16],
    claim: Claim,
) -> io::Result<Option<Reason>> {
    let Some(node) = place(rt, about, word, n, nodes)? else {
        return Ok(None);
    };
    if nodes.len() / 3 <= node {
        return Ok(None);
    }
    let at = 3 * node;
    let left = usize::from(nodes[at + 1]);
    let right = usize::from(nodes[at + 2]);
    or_said(
        rt,
        reasons::reason_for(claim, nodes[at], left, right),
        about,
    )
}
