// A verdict: false is 0, unknown is 1, true is 2.
ghost use Rattle.std.specs.Prelude.{◌≡◌, min, max};
ghost use Rattle.values.specs.Values.{neg};
ghost use Rattle.values.specs.Answers.{verdict, VerdictOf};

// kept: a form that a rule of the project names: a type with constants for the three values, and functions that make one.
#[derive(Clone, Copy, PartialEq, Eq, PartialOrd, Ord, Debug)]
pub struct Verdict(pub u8);

impl Verdict {
    pub const FALSE: Verdict = Verdict(0);

    pub const UNKNOWN: Verdict = Verdict(1);

    pub const TRUE: Verdict = Verdict(2);

    // The verdict of a number, if it has one.
    pub fn of(number: u8) -> Option<Verdict>
        ensures { VerdictOf number result }
    {
        match number {
            0 => Some(Verdict::FALSE),
            1 => Some(Verdict::UNKNOWN),
            2 => Some(Verdict::TRUE),
            _ => None,
        }
    }

    pub fn number(self) -> u8
        ensures { result ≡ self.0 }
    {
        self.0
    }

    pub fn not(self) -> Verdict
        ensures { result ≡ verdict (neg self.0) }
    {
        match self {
            Verdict::FALSE => Verdict::TRUE,
            Verdict::UNKNOWN => Verdict::UNKNOWN,
            _ => Verdict::FALSE,
        }
    }

    pub fn and(self, other: Verdict) -> Verdict
        ensures { result ≡ verdict (min self.0 other.0) }
    {
        self.min(other)
    }

    pub fn or(self, other: Verdict) -> Verdict
        ensures { result ≡ verdict (max self.0 other.0) }
    {
        self.max(other)
    }
}
