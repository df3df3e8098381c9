// Why a call says no. Each cause has its number in specs/Refusal.antt, and these are the words that a user reads.
ghost use Rattle.std.specs.Prelude.{◌≡◌};
ghost use Rattle.values.specs.Refusal.{number_of};

use std::error::Error;
use std::fmt;

// The causes, by their numbers.
#[derive(Clone, Copy, PartialEq, Eq, Debug)]
pub enum Refusal {
    StateCount = 1,
    AtomCount = 2,
    LabelCount = 3,
    Label = 4,
    Initial = 5,
    TransitionList = 6,
    TransitionEnd = 7,
    TransitionOrder = 8,
    StuckState = 9,
    NodeList = 10,
    Kind = 11,
    Operand = 12,
    VerdictSpace = 13,
    Row = 14,
    LevelOrStart = 15,
    PathSpace = 16,
    NotShortest = 17,
    TextSize = 18,
    TextForm = 19,
    FormulaForm = 20,
    Gate = 21,
    UnnamedAtom = 22,
    TableSpace = 24,
}

impl Refusal {
    // The number that the rules give this cause.
    // kept: a method, whose clause names the number; From would give a u8 of a Refusal anywhere, with a name that doesn't say which.
    pub fn number(self) -> u8
        ensures { result ≡ number_of self }
    {
        self as u8
    }
}

impl fmt::Display for Refusal {
    fn fmt<W: fmt::Write>(&self, f: &mut fmt::Formatter<W>) -> fmt::Result {
        f.write_str(match self {
            Refusal::StateCount => "no state, or more than the limit",
            Refusal::AtomCount => "more atoms than the limit",
            Refusal::LabelCount => "not one label for each state and atom",
            Refusal::Label => "a label above 2",
            Refusal::Initial => "not one initial entry a state, one above 1, or no 1",
            Refusal::TransitionList =>
                "the transition list is odd in length, empty, or above the limit",
            Refusal::TransitionEnd => "a transition end that is no state",
            Refusal::TransitionOrder => "the transitions do not ascend strictly",
            Refusal::StuckState => "a state without a successor",
            Refusal::NodeList =>
                "the node list is empty, above the limit, or not three numbers a node",
            Refusal::Kind => "a kind above the greatest",
            Refusal::Operand =>
                "an operand that is not earlier, an atom that is none, or an unused number that is not 0",
            Refusal::VerdictSpace => "the verdict space has fewer bytes than the rows",
            Refusal::Row => "a row that is not one value a state, or has a value above 2",
            Refusal::LevelOrStart => "a level other than 1 and 2, or a start that is no state",
            Refusal::PathSpace => "the path space is shorter than the path",
            Refusal::NotShortest => "the list is no shortest witness from its first entry",
            Refusal::TextSize => "a text above the limit",
            Refusal::TextForm => "a text that breaks the form",
            Refusal::FormulaForm => "a formula outside the grammar or above the limit",
            Refusal::Gate => "a gate with a NaN or crossed limits",
            Refusal::UnnamedAtom => "an atom that no node names",
            Refusal::TableSpace => "a lent table or space is too short",
        })
    }
}

impl Error for Refusal {}
