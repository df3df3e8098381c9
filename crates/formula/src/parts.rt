// The formula that ends at a node of a list: where its nodes begin, and how long its text is.
ghost use Rattle.std.specs.Prelude.{◌≡◌, ◌+◌, ◌*◌, ◌<◌, ◌≤◌, length};
ghost use Rattle.values.specs.Signs.{decimal};
ghost use Rattle.formula.specs.InsidePrinting.{sort_of, takes, signs, NodeRead, Inside, PartFound, LeafFound, PrefixAsked, PrefixFound, PartYielded};

use model::kinds::Kind;
use values::limits::{MOST_ATOMS, MOST_FORMULA, MOST_NODE_NUMBERS};

// A node: its kind and its two numbers.
#[derive(Clone, Copy)]
pub(crate) struct Node {
    pub(crate) kind: Kind,
    pub(crate) left: u16,
    pub(crate) right: u16,
}

// A formula in a list: its first node's number, and how many bytes its text has.
#[derive(Clone, Copy)]
pub(crate) struct Part {
    pub(crate) first: usize,
    pub(crate) bytes: usize,
}

// Node i of a list, if its first number is a kind's.
pub(crate) fn node_at(nodes: &[u16], i: usize) -> Option<Node>
    requires { 3 * (i + 1) ≤ length nodes.now }
    ensures { NodeRead nodes.now i result }
{
    let kind = Kind::of(nodes[3 * i])?;
    Some(Node {
        kind,
        left: nodes[3 * i + 1],
        right: nodes[3 * i + 2],
    })
}

// How many operands a kind has.
pub(crate) fn operands(kind: Kind) -> u8
    ensures { result ≡ takes (sort_of kind) }
{
    match kind {
        Kind::True | Kind::Atom => 0,
        Kind::Not | Kind::Ex | Kind::Ax | Kind::Ef | Kind::Af | Kind::Eg | Kind::Ag => 1,
        Kind::And | Kind::Eu | Kind::Au | Kind::Or | Kind::Implies => 2,
    }
}

// How many bytes a kind's text has besides its operands'.
fn signs_size(kind: Kind) -> usize
    ensures { result ≡ signs (sort_of kind) }
{
    match kind {
        Kind::True | Kind::Atom => 0,
        Kind::Not => 1,
        Kind::Eu | Kind::Au => 6,
        _ => 3,
    }
}

// How many digits a number has.
// kept: the twin of answer's decimal_size: shared, it would be a public function of values with must-fail edits of its own, for three lines.
fn digits(number: u16) -> usize
    ensures { result ≡ length (decimal number) }
{
    if number < 10 {
        return 1;
    }
    digits(number / 10) + 1
}

// Of a node without operands.
fn leaf_part(node: Node, i: usize) -> Option<Part>
    requires { takes (sort_of node.kind) ≡ 0 }
    ensures { LeafFound node i result }
{
    if node.right != 0 {
        return None;
    }
    if let Kind::Atom = node.kind {
        if MOST_ATOMS <= node.left as usize {
            return None;
        }
        return Some(Part {
            first: i,
            bytes: digits(node.left) + 1,
        });
    }
    if node.left != 0 {
        return None;
    }
    Some(Part { first: i, bytes: 1 })
}

// Of a node with one operand, which is the node before it.
fn prefix_part(node: Node, i: usize, last: Part) -> Option<Part>
    requires { PrefixAsked node i last.bytes }
    ensures { PrefixFound node i last.first last.bytes result }
{
    if node.right != 0 {
        return None;
    }
    if node.left as usize != i - 1 {
        return None;
    }
    Some(Part {
        first: last.first,
        bytes: last.bytes + signs_size(node.kind),
    })
}

// Whether node i is the whole of a formula: the last operand is the node before it, and the left one ends where that begins.
fn part_at(nodes: &[u16], i: usize) -> Option<Part>
    requires { Inside nodes.now i }
    ensures { PartFound nodes.now i result }
{
    let node = node_at(nodes, i)?;
    let taken = operands(node.kind);
    if taken == 0 {
        return leaf_part(node, i);
    }
    if i == 0 {
        return None;
    }
    let last = part_at(nodes, i - 1)?;
    if taken == 1 {
        return prefix_part(node, i, last);
    }
    if node.right as usize != i - 1 {
        return None;
    }
    if node.left as usize + 1 != last.first {
        return None;
    }
    let left = part_at(nodes, node.left as usize)?;
    Some(Part {
        first: left.first,
        bytes: left.bytes + last.bytes + signs_size(node.kind),
    })
}

// The formula that node i of a list is the whole of, where it is an accepted one.
pub(crate) fn accepted_part(nodes: &[u16], i: usize) -> Option<Part>
    ensures { PartYielded nodes.now i result }
{
    if MOST_NODE_NUMBERS < nodes.len() {
        return None;
    }
    if nodes.len() / 3 <= i {
        return None;
    }
    let part = part_at(nodes, i)?;
    if MOST_FORMULA < part.bytes {
        return None;
    }
    Some(part)
}
