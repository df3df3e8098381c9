// The kinds of nodes. Their numbers, and what each uses its two numbers for, stand in specs/Kinds.antt.
ghost use Rattle.std.specs.Prelude.{◌≡◌};
ghost use Rattle.model.specs.Kinds.{KindOf, kind_number};

// By their numbers, from 0: constant true, an atom, not, and, EX, E until, A until, or, implies, AX, EF, AF, EG, AG.
#[derive(Clone, Copy, PartialEq, Eq, Debug)]
pub enum Kind {
    True,
    Atom,
    Not,
    And,
    Ex,
    Eu,
    Au,
    Or,
    Implies,
    Ax,
    Ef,
    Af,
    Eg,
    Ag,
}

impl Kind {
    // The kind of this number, or none above the greatest.
    // kept: an Option, which callers hand on by `?` or open; TryFrom's error would say no more.
    #[tactic(auto, unfolding(crate::specs::Kinds::kind_of))]
    pub fn of(number: u16) -> Option<Kind>
        ensures { KindOf number result }
    {
        match number {
            0 => Some(Kind::True),
            1 => Some(Kind::Atom),
            2 => Some(Kind::Not),
            3 => Some(Kind::And),
            4 => Some(Kind::Ex),
            5 => Some(Kind::Eu),
            6 => Some(Kind::Au),
            7 => Some(Kind::Or),
            8 => Some(Kind::Implies),
            9 => Some(Kind::Ax),
            10 => Some(Kind::Ef),
            11 => Some(Kind::Af),
            12 => Some(Kind::Eg),
            13 => Some(Kind::Ag),
            _ => None,
        }
    }

    // The number that a node of this kind begins with.
    pub fn number(self) -> u16
        ensures { result ≡ kind_number self }
    {
        self as u16
    }
}
