// Which reason there is, by the kind of a node and what is claimed of it.
use crate::words::Claim;
use model::kinds::Kind;
use values::verdict::Verdict;

// How a reason is told.
#[derive(Clone, Copy, PartialEq, Eq, Debug)]
pub(crate) enum Form {
    // As paths of an exists-until, over values of at least this one.
    Paths(Verdict),
    // As a picture of an A-until that is false.
    Picture,
}

// The left and the right row of that until, by the nodes that they come from.
#[derive(Clone, Copy, PartialEq, Eq, Debug)]
pub(crate) enum Rows {
    // Those of two nodes.
    Own(usize, usize),
    // True everywhere, and that of a node.
    Part(usize),
    // True everywhere, and not that of a node.
    Opposite(usize),
}

#[derive(Clone, Copy)]
pub(crate) struct Reason {
    pub(crate) form: Form,
    pub(crate) rows: Rows,
}

// The reason for a claim about a node of a kind, which has these two numbers. AG f is false exactly where E(true U not f) is true.
// kept: the kind as the node list has it, a number that may be no kind's: then there is no reason, as for kinds that have none.
pub(crate) fn reason_for(claim: Claim, kind: u16, left: usize, right: usize) -> Option<Reason> {
    let surely = Form::Paths(Verdict::TRUE);
    let possibly = Form::Paths(Verdict::UNKNOWN);
    let (form, rows) = match (claim, Kind::of(kind)?) {
        (Claim::True, Kind::Eu) => (surely, Rows::Own(left, right)),
        (Claim::True, Kind::Ef) => (surely, Rows::Part(left)),
        (Claim::True, Kind::Eg) => (Form::Picture, Rows::Opposite(left)),
        (Claim::Possible, Kind::Eu) => (possibly, Rows::Own(left, right)),
        (Claim::Possible, Kind::Ef) => (possibly, Rows::Part(left)),
        (Claim::False, Kind::Au) => (Form::Picture, Rows::Own(left, right)),
        (Claim::False, Kind::Af) => (Form::Picture, Rows::Part(left)),
        (Claim::False, Kind::Ag) => (surely, Rows::Opposite(left)),
        _ => return None,
    };
    Some(Reason { form, rows })
}
