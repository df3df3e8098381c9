// Two numbers with a comma between them, and gates, by the reader of one number.
ghost use Rattle.std.specs.Prelude.{◌≡◌, ℕ, List, Option};
ghost use Rattle.labelling.specs.Lines.{pair, gate};

use numerals::texts::split_once;
use readings::gate::Gate;

// A number as a line has it: `says` is what a text stands for.
pub(crate) trait Number: Copy {
    ghost says: { List ℕ → Option Self };

    fn read(text: &[u8]) -> Option<Self>
        ensures { result ≡ says text.now };
}

#[tactic(auto, unfolding(crate::specs::Lines::pair))]
pub(crate) fn read_pair<T: Number>(text: &[u8]) -> Option<(T, T)>
    ensures { result ≡ pair T.says text.now }
{
    let (first, second) = split_once(text, b',')?;
    Some((T::read(first)?, T::read(second)?))
}

#[tactic(auto, using(crate::proofs::Keys::at_least_is, crate::proofs::Keys::at_most_is, crate::proofs::Keys::between_is), unfolding(crate::specs::Lines::gate))]
pub(crate) fn read_gate<T: Number>(text: &[u8]) -> Option<Gate<T>>
    ensures { result ≡ gate T.says text.now }
{
    if let Some(limit) = text.strip_prefix(b"atleast=") {
        return Some(Gate::AtLeast(T::read(limit)?));
    }
    if let Some(limit) = text.strip_prefix(b"atmost=") {
        return Some(Gate::AtMost(T::read(limit)?));
    }
    if let Some(limits) = text.strip_prefix(b"between=") {
        let (a, b) = read_pair::<T>(limits)?;
        return Some(Gate::Between(a, b));
    }
    None
}
