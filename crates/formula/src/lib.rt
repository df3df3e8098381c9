// Formulas as people write them: read into a node list, and printed from one.
//
//   signs     what a text goes on with: a prefix, an opening, a middle
//   atoms     an atom's number
//   place     where a reader begins and ends
//   reading   the readers of a formula and of a term, which call each other
//   nodes     the node space
//   parts     the formula that ends at a node of a list
//   printing  its text, put into a space
//
// specs/Tree says what a formula is, Text how it is written, Nodes its node list, Meaning its value; Answers what the calls promise.
#![tactic(auto)]

use values::limits::{MOST_FORMULA, MOST_NODE_NUMBERS, MOST_NODES};
use values::refusal::Refusal;

mod atoms;
mod nodes;
mod parts;
mod place;
mod printing;
mod reading;
mod signs;

ghost use Rattle.formula.specs.Answers.{Yields, YieldsPart, FormulaRead, FormulaPrinted};

use parts::accepted_part;
use place::Place;
use printing::write;
use reading::formula;

// Reads a formula's text into the front of a node space: how many nodes stand there; the rest of the space stays. A refusal leaves all of it.
pub fn read_formula(text: &[u8], nodes: &mut [u16]) -> Result<usize, Refusal>
    ensures { FormulaRead text.now nodes.old nodes.new result }
{
    if nodes.len() < MOST_NODE_NUMBERS {
        return Err(Refusal::TableSpace);
    }
    if MOST_FORMULA < text.len() {
        return Err(Refusal::FormulaForm);
    }
    let mut space = [0u16; MOST_NODE_NUMBERS];
    let mut parsed = Place {
        rest: text,
        nodes: 0,
    };
    let Some(()) = formula(&mut parsed, &mut space) else {
        return Err(Refusal::FormulaForm);
    };
    if !parsed.rest.is_empty() {
        return Err(Refusal::FormulaForm);
    }
    if MOST_NODES < parsed.nodes {
        return Err(Refusal::NodeList);
    }
    let n = 3 * parsed.nodes;
    nodes[..n].copy_from_slice(&space[..n]);
    Ok(parsed.nodes)
}

// Prints the formula that a node list is of into the front of a text space: how many bytes stand there; the rest of the space stays. A refusal
// leaves all of it.
pub fn print_formula(nodes: &[u16], text: &mut [u8]) -> Result<usize, Refusal>
    ensures { FormulaPrinted (Yields nodes.now) text.old text.new result }
{
    if text.len() < MOST_FORMULA {
        return Err(Refusal::TableSpace);
    }
    if nodes.is_empty() {
        return Err(Refusal::FormulaForm);
    }
    if nodes.len() % 3 != 0 {
        return Err(Refusal::FormulaForm);
    }
    let last = nodes.len() / 3 - 1;
    let Some(whole) = accepted_part(nodes, last) else {
        return Err(Refusal::FormulaForm);
    };
    if whole.first != 0 {
        return Err(Refusal::FormulaForm);
    }
    Ok(write(nodes, last, text, 0))
}

// The same of the formula that one node of a list is the whole of, whatever the nodes behind it are.
pub fn print_part(nodes: &[u16], node: usize, text: &mut [u8]) -> Result<usize, Refusal>
    ensures { FormulaPrinted (YieldsPart nodes.now node) text.old text.new result }
{
    if text.len() < MOST_FORMULA {
        return Err(Refusal::TableSpace);
    }
    let Some(_part) = accepted_part(nodes, node) else {
        return Err(Refusal::FormulaForm);
    };
    Ok(write(nodes, node, text, 0))
}
