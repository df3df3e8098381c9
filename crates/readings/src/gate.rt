// A gate, and what it makes of a measurement by the order of its limits.
ghost use Rattle.std.specs.Prelude.{◌≡◌};
ghost use Rattle.std.specs.Ordering.{partial_le};
ghost use Rattle.values.specs.Answers.{verdict};
ghost use Rattle.readings.specs.Gates.{sound, not_below, not_above, measured};
ghost use Rattle.readings.specs.Answers.{labelled};

use values::refusal::Refusal;
use values::verdict::Verdict;

// The values that are taken, ends included: voltages as f64, delays as i32.
#[derive(Clone, Copy, PartialEq, Debug)]
pub enum Gate<T> {
    AtLeast(T),
    AtMost(T),
    Between(T, T),
}

impl<T: Copy + PartialOrd> Gate<T> {
    // No limit is a NaN, and they are not crossed.
    #[tactic(auto, unfolding(crate::specs::Gates::sound))]
    fn is_sound(self) -> bool
        ensures { result ≡ sound (partial_le T.partial_cmp) self }
    {
        match self {
            Gate::AtLeast(x) => x <= x,
            Gate::AtMost(x) => x <= x,
            Gate::Between(a, b) => a <= b,
        }
    }

    #[tactic(auto, unfolding(crate::specs::Gates::not_below))]
    fn has_not_below(self, value: T) -> bool
        ensures { result ≡ not_below (partial_le T.partial_cmp) self value }
    {
        match self {
            Gate::AtLeast(x) => x <= value,
            Gate::AtMost(_) => true,
            Gate::Between(a, _) => a <= value,
        }
    }

    #[tactic(auto, unfolding(crate::specs::Gates::not_above))]
    fn has_not_above(self, value: T) -> bool
        ensures { result ≡ not_above (partial_le T.partial_cmp) self value }
    {
        match self {
            Gate::AtLeast(_) => true,
            Gate::AtMost(x) => value <= x,
            Gate::Between(_, b) => value <= b,
        }
    }

    // A measurement from its least to its greatest value: true if all of it lies in the gate, false if all of it lies on one side.
    #[tactic(auto, unfolding(crate::specs::Gates::measured, crate::specs::Gates::three_way, crate::specs::Gates::wholly_inside, crate::specs::Gates::wholly_outside, crate::specs::Gates::inside))]
    fn measure(self, least: T, greatest: T) -> Verdict
        ensures { result ≡ verdict (measured (partial_le T.partial_cmp) self least greatest) }
    {
        if !(least <= greatest) {
            return Verdict::UNKNOWN;
        }
        if !self.has_not_below(greatest) {
            return Verdict::FALSE;
        }
        if !self.has_not_above(least) {
            return Verdict::FALSE;
        }
        if self.has_not_below(least) {
            if self.has_not_above(greatest) {
                return Verdict::TRUE;
            }
        }
        Verdict::UNKNOWN
    }

    // The label of a measurement; a gate that is not sound is refused, whatever was measured.
    #[tactic(auto, unfolding(crate::specs::Answers::labelled))]
    pub(crate) fn label(self, least: T, greatest: T) -> Result<Verdict, Refusal>
        ensures { result ≡ labelled (partial_le T.partial_cmp) self least greatest }
    {
        if self.is_sound() {
            return Ok(self.measure(least, greatest));
        }
        Err(Refusal::Gate)
    }
}
