// The text of the formula that ends at a node, put into a space. Each function says the place behind what it put.
ghost use Rattle.std.specs.Prelude.{◌≡◌, ◌+◌, ◌<◌, ◌≤◌, [], ◌∷◌, length};
ghost use Rattle.lists.specs.Entries.{at};
ghost use Rattle.lists.specs.Rows.{Put};
ghost use Rattle.values.specs.Signs.{digits, decimal};
ghost use Rattle.formula.specs.InsidePrinting.{sort_of, front, inner, leaf_text, LeafFits, Writable, Written};

use crate::parts::{Node, node_at, operands};
use model::kinds::Kind;

// kept: the space and the place stay two parameters; a struct of both would be lent on to each function here, and promise of both what these do.
// kept: the twin of answer's put_bytes: shared, it would be public, and a public function has no requires.
fn put(sign: &[u8], text: &mut [u8], place: usize) -> usize
    requires { place + length sign.now ≤ length text.old }
    ensures { Put text.old text.new place result sign.now }
{
    let end = place + sign.len();
    text[place..end].copy_from_slice(sign);
    end
}

// kept: the twin of answer's, for the reason that put has.
fn put_digit(digit: u16, text: &mut [u8], place: usize) -> usize
    requires { (digit < 10) × (place < length text.old) }
    ensures { Put text.old text.new place result (at digits digit ∷ []) }
{
    text[place] = b'0' + digit as u8;
    place + 1
}

// kept: the twin of answer's, for the reason that put has.
fn put_decimal(number: u16, text: &mut [u8], place: usize) -> usize
    requires { place + length (decimal number) ≤ length text.old }
    ensures { Put text.old text.new place result (decimal number) }
{
    if number < 10 {
        return put_digit(number, text, place);
    }
    let last = put_decimal(number / 10, text, place);
    put_digit(number % 10, text, last)
}

// What stands in front of the first operand: a sign of known length for each kind, which costs less than one put by its length.
// kept: the space and the place by themselves, for the reason that put has.
fn put_opening(kind: Kind, text: &mut [u8], place: usize) -> usize
    requires { place + length (front (sort_of kind)) ≤ length text.old }
    ensures { Put text.old text.new place result (front (sort_of kind)) }
{
    match kind {
        Kind::True | Kind::Atom => put(b"", text, place),
        Kind::Not => put(b"!", text, place),
        Kind::Ex => put(b"EX ", text, place),
        Kind::Ax => put(b"AX ", text, place),
        Kind::Ef => put(b"EF ", text, place),
        Kind::Af => put(b"AF ", text, place),
        Kind::Eg => put(b"EG ", text, place),
        Kind::Ag => put(b"AG ", text, place),
        Kind::And | Kind::Or | Kind::Implies => put(b"(", text, place),
        Kind::Eu => put(b"E(", text, place),
        Kind::Au => put(b"A(", text, place),
    }
}

// What stands between the two operands, so too.
// kept: the space and the place by themselves, for the reason that put has.
fn put_middle(kind: Kind, text: &mut [u8], place: usize) -> usize
    requires { place + length (inner (sort_of kind)) ≤ length text.old }
    ensures { Put text.old text.new place result (inner (sort_of kind)) }
{
    match kind {
        Kind::And => put(b"&", text, place),
        Kind::Or => put(b"|", text, place),
        Kind::Implies => put(b">", text, place),
        Kind::Eu | Kind::Au => put(b" U ", text, place),
        _ => put(b"", text, place),
    }
}

// A node without operands.
fn write_leaf(node: Node, text: &mut [u8], place: usize) -> usize
    requires { LeafFits node text.old place }
    ensures { Put text.old text.new place result (leaf_text (sort_of node.kind) node.left) }
{
    if let Kind::True = node.kind {
        return put(b"T", text, place);
    }
    let number = put(b"p", text, place);
    put_decimal(node.left, text, number)
}

// The text of the formula that ends at node i; where a node is of no kind none ends, and nothing is put.
pub(crate) fn write(nodes: &[u16], i: usize, text: &mut [u8], place: usize) -> usize
    requires { Writable nodes.now text.old i place }
    ensures { Written nodes.now i text.old text.new place result }
{
    let Some(node) = node_at(nodes, i) else {
        return place;
    };
    let taken = operands(node.kind);
    if taken == 0 {
        return write_leaf(node, text, place);
    }
    let first = put_opening(node.kind, text, place);
    if taken == 1 {
        return write(nodes, i - 1, text, first);
    }
    let join = write(nodes, node.left as usize, text, first);
    let second = put_middle(node.kind, text, join);
    let end = write(nodes, i - 1, text, second);
    put(b")", text, end)
}
