// The readers of a formula and of a term, which call each other. Each is lent a place and leaves it behind what it read; it lays the nodes that
// it reads into a space, numbered on from the place.
ghost use Rattle.formula.specs.Inside.{Parses, Any, Term, Leaf};

use crate::atoms::atom_at;
use crate::nodes::put_node;
use crate::place::Place;
use crate::signs::{middle_at, opening_at, prefix_at};
use model::kinds::Kind;
use values::limits::MOST_NODE_NUMBERS;

// T or an atom.
fn leaf<'a>(place: &mut Place<'a>, space: &mut [u16; MOST_NODE_NUMBERS]) -> Option<()>
    ensures { Parses Leaf place.old space.old space.new place.new result }
{
    if place.rest.starts_with(b"T") {
        put_node(space, place.nodes, Kind::True, 0, 0);
        *place = Place {
            rest: &place.rest[1..],
            nodes: place.nodes + 1,
        };
        return Some(());
    }
    if !place.rest.starts_with(b"p") {
        return None;
    }
    let digits = &place.rest[1..];
    let atom = atom_at(digits)?;
    put_node(space, place.nodes, Kind::Atom, atom.number as u16, 0);
    *place = Place {
        rest: &digits[atom.size..],
        nodes: place.nodes + 1,
    };
    Some(())
}

// A pair in its brackets, or else a leaf.
// kept: two readers that call each other and hand on a place, a form that a rule of the project names.
#[cycle(formula_term)]
fn term<'a>(place: &mut Place<'a>, space: &mut [u16; MOST_NODE_NUMBERS]) -> Option<()>
    ensures { Parses Term place.old space.old space.new place.new result }
{
    let Some(opening) = opening_at(place.rest) else {
        return leaf(place, space);
    };
    place.rest = &place.rest[opening.size..];
    formula(place, space)?;
    let left_root = (place.nodes - 1) as u16;
    let middle = middle_at(place.rest, opening.kind)?;
    place.rest = &place.rest[middle.size..];
    formula(place, space)?;
    if !place.rest.starts_with(b")") {
        return None;
    }
    let right_root = (place.nodes - 1) as u16;
    put_node(space, place.nodes, middle.kind, left_root, right_root);
    *place = Place {
        rest: &place.rest[1..],
        nodes: place.nodes + 1,
    };
    Some(())
}

// Any number of prefixes before one term.
#[cycle(formula_term)]
pub(crate) fn formula<'a>(place: &mut Place<'a>, space: &mut [u16; MOST_NODE_NUMBERS]) -> Option<()>
    ensures { Parses Any place.old space.old space.new place.new result }
{
    let Some(prefix) = prefix_at(place.rest) else {
        return term(place, space);
    };
    place.rest = &place.rest[prefix.size..];
    formula(place, space)?;
    put_node(space, place.nodes, prefix.kind, (place.nodes - 1) as u16, 0);
    place.nodes += 1;
    Some(())
}
