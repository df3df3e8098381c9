// Voltages, and the label of a reading.
ghost use Rattle.numerals.specs.Doubles.{double};
ghost use Rattle.labelling.specs.Lines.{pair, gate, volts_said};
ghost use Rattle.labelling.specs.Answers.{Labels};

use crate::numbers::{Number, read_gate, read_pair};
use numerals::doubles::read_double;
use readings::voltages::{Reading, label};
use values::refusal::Refusal;
use values::verdict::Verdict;

impl Number for f64 {
    ghost says = { double };

    fn read(text: &[u8]) -> Option<f64> {
        read_double(text)
    }
}

#[tactic(auto, unfolding(readings::specs::Answers::voltage_label))]
pub(crate) fn label_volts(limits: &[u8], ends: &[u8]) -> Result<Verdict, Refusal>
    ensures { Labels (volts_said (gate double limits.now) (pair double ends.now)) result }
{
    let gate = read_gate::<f64>(limits).ok_or(Refusal::TextForm)?;
    let (least, greatest) = read_pair::<f64>(ends).ok_or(Refusal::TextForm)?;
    label(Reading { least, greatest }, gate)
}
