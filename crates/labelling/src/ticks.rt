// Limits of delays and tick counters, and the label of the delay between two counters.
ghost use Rattle.std.specs.Prelude.{◌≡◌, ◌<◌, ◌^◌};
ghost use Rattle.numerals.specs.Wholes.{most_digits};
ghost use Rattle.labelling.specs.Lines.{value_of, in_range, limit, turned, counter, pair, gate, ticks_said};
ghost use Rattle.labelling.specs.Answers.{Labels};

use crate::numbers::{Number, read_gate, read_pair};
use numerals::wholes::{Signed, read_signed, read_whole};
use readings::delays::{delay, label_delay};
use values::refusal::Refusal;
use values::verdict::Verdict;

fn value_of(number: Signed) -> i64
    requires { number.size < 10 ^ most_digits }
    ensures { result ≡ value_of number }
{
    if number.negative {
        return -(number.size as i64);
    }
    number.size as i64
}

// A limit of a delay, if the number is one.
#[tactic(auto, unfolding(crate::specs::Lines::in_range))]
fn limit_of(value: i64) -> Option<i32>
    ensures { result ≡ in_range value }
{
    i32::try_from(value).ok()
}

#[tactic(auto, unfolding(crate::specs::Lines::turned))]
fn counter_of(number: u64) -> Option<u32>
    ensures { result ≡ turned number }
{
    u32::try_from(number).ok()
}

impl Number for i32 {
    ghost says = { limit };

    #[tactic(auto, using(numerals::proofs::Bounds::signed_small), unfolding(crate::specs::Lines::limit))]
    fn read(text: &[u8]) -> Option<i32> {
        limit_of(value_of(read_signed(text)?))
    }
}

impl Number for u32 {
    ghost says = { counter };

    #[tactic(auto, unfolding(crate::specs::Lines::counter))]
    fn read(text: &[u8]) -> Option<u32> {
        counter_of(read_whole(text)?)
    }
}

pub(crate) fn label_ticks(limits: &[u8], counters: &[u8]) -> Result<Verdict, Refusal>
    ensures { Labels (ticks_said (gate limit limits.now) (pair counter counters.now)) result }
{
    let gate = read_gate::<i32>(limits).ok_or(Refusal::TextForm)?;
    let (later, earlier) = read_pair::<u32>(counters).ok_or(Refusal::TextForm)?;
    label_delay(delay(later, earlier), gate)
}
