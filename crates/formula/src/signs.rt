// The signs that a formula's text goes on with.
ghost use Rattle.std.specs.Prelude.{◌≡◌};
ghost use Rattle.formula.specs.Text.{sign};
ghost use Rattle.formula.specs.Inside.{SignAt, Bracket, plain, prefix_named, opened, bracket_kind, MiddleAt};

use model::kinds::Kind;

// The kind that a sign stands for, and how many bytes it takes.
#[derive(Clone, Copy)]
pub(crate) struct Sign {
    pub(crate) kind: Kind,
    pub(crate) size: usize,
}

// What stands before a formula.
pub(crate) fn prefix_at(rest: &[u8]) -> Option<Sign>
    ensures { SignAt sign prefix_named rest.now result }
{
    let (kind, size) = match rest {
        [b'!', ..] => (Kind::Not, 1),
        [b'E', b'X', b' ', ..] => (Kind::Ex, 3),
        [b'A', b'X', b' ', ..] => (Kind::Ax, 3),
        [b'E', b'F', b' ', ..] => (Kind::Ef, 3),
        [b'A', b'F', b' ', ..] => (Kind::Af, 3),
        [b'E', b'G', b' ', ..] => (Kind::Eg, 3),
        [b'A', b'G', b' ', ..] => (Kind::Ag, 3),
        _ => return None,
    };
    Some(Sign { kind, size })
}

// The bracket that begins a pair: it goes by the first kind that it begins.
pub(crate) fn opening_at(rest: &[u8]) -> Option<Sign>
    ensures { SignAt opened bracket_kind rest.now result }
{
    let (kind, size) = match rest {
        [b'(', ..] => (Kind::And, 1),
        [b'E', b'(', ..] => (Kind::Eu, 2),
        [b'A', b'(', ..] => (Kind::Au, 2),
        _ => return None,
    };
    Some(Sign { kind, size })
}

// What joins the parts of a pair with a plain bracket.
fn join_at(rest: &[u8]) -> Option<Sign>
    ensures { MiddleAt plain rest.now result }
{
    let kind = match rest {
        [b'&', ..] => Kind::And,
        [b'|', ..] => Kind::Or,
        [b'>', ..] => Kind::Implies,
        _ => return None,
    };
    Some(Sign { kind, size: 1 })
}

// What joins the parts of a pair: one with E or A is until's alone.
pub(crate) fn middle_at(rest: &[u8], bracket: Kind) -> Option<Sign>
    ensures { (b : Bracket) → bracket ≡ bracket_kind b → MiddleAt b rest.now result }
{
    if let Kind::And = bracket {
        return join_at(rest);
    }
    if rest.starts_with(b" U ") {
        return Some(Sign {
            kind: bracket,
            size: 3,
        });
    }
    None
}
