// Lines of the label desk, labelled and told.
use crate::lines::{Call, Case};
use std::io;
use values::verdict::Verdict;

// kept: a Verdict may be none of the three, and a Display would have to print that too.
pub(crate) fn asked<R: Print>(case: &Case<R>, line: &[u8]) -> io::Result<()> {
    case.begin(Call::Label)?;
    match labelling::label_line(line) {
        Ok(Verdict::FALSE) => println!(case.rt; "F"),
        Ok(Verdict::UNKNOWN) => println!(case.rt; "U"),
        Ok(_) => println!(case.rt; "T"),
        Err(refusal) => println!(case.rt; "answer={}", refusal.number()),
    }
}
