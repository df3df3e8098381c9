// What a case writes: which call, its name, numbers, and whether what was lent stayed.
use crate::spaces::front;
use answer::MOST_PATH_LINE;
use std::{fmt, io};
use values::refusal::Refusal;

#[derive(Clone, Copy, PartialEq, Eq)]
pub(crate) enum Call {
    Read,
    Text,
    First,
    Next,
    Check,
    Judge,
    Night,
    ReadFormula,
    PrintFormula,
    PrintPart,
    JudgeFormula,
    Label,
    Picture,
    CheckPicture,
}

// How a call's line begins; a night is told in short, and names none.
impl fmt::Display for Call {
    fn fmt<W: fmt::Write>(&self, f: &mut fmt::Formatter<W>) -> fmt::Result {
        f.write_str(match self {
            Call::Read => "read, ",
            Call::Text => "text, ",
            Call::First => "first, ",
            Call::Next => "next, ",
            Call::Check => "check, ",
            Call::Judge => "judge, ",
            Call::Night => "",
            Call::ReadFormula => "read formula, ",
            Call::PrintFormula => "print formula, ",
            Call::PrintPart => "print part, ",
            Call::JudgeFormula => "judge formula, ",
            Call::Label => "label, ",
            Call::Picture => "picture, ",
            Call::CheckPicture => "check picture, ",
        })
    }
}

// What is lent, whole, or the rest of it behind what was written.
#[derive(Clone, Copy)]
pub(crate) enum Lent {
    Rest,
    VerdictSpace,
    Tables,
    PathSpace,
    List,
    NodeSpace,
    TextSpace,
}

impl fmt::Display for Lent {
    fn fmt<W: fmt::Write>(&self, f: &mut fmt::Formatter<W>) -> fmt::Result {
        f.write_str(match self {
            Lent::Rest => "rest",
            Lent::VerdictSpace => "verdict space",
            Lent::Tables => "tables",
            Lent::PathSpace => "path space",
            Lent::List => "list",
            Lent::NodeSpace => "node space",
            Lent::TextSpace => "text space",
        })
    }
}

// A case that is told: where to, and its name.
#[derive(Drop)]
pub(crate) struct Case<'a, R> {
    pub(crate) rt: &'a R,
    pub(crate) name: &'a [u8],
}

impl<'a, R: Print> Case<'a, R> {
    // The beginning of a line: which call, and the name.
    pub(crate) fn begin(&self, call: Call) -> io::Result<()> {
        print!(self.rt; "{call}")?;
        self.rt.write_all(self.name)?;
        print!(self.rt; ": ")
    }

    // The number of a refusal.
    // kept: a sheet has a number, and no refusal.
    pub(crate) fn answer(&self, number: u8) -> io::Result<()> {
        print!(self.rt; "answer={number}")
    }

    // The line of a path, without its line feed.
    pub(crate) fn path(&self, path: &[u16]) -> io::Result<()> {
        let mut line = [0u8; MOST_PATH_LINE];
        let Ok(n) = answer::write_path(path, &mut line) else {
            return Ok(());
        };
        self.rt.write_all(front(&line, n.saturating_sub(1)))
    }

    // The end of a line: whether what is named stayed as it was.
    pub(crate) fn kept(&self, what: Lent, same: bool) -> io::Result<()> {
        let word = if same { "kept" } else { "changed" };
        println!(self.rt; ", {what} {word}")
    }

    // The line of a check.
    pub(crate) fn checked(&self, call: Call, answer: Result<bool, Refusal>) -> io::Result<()> {
        self.begin(call)?;
        match answer {
            Ok(true) => println!(self.rt; "yes"),
            Ok(false) => println!(self.rt; "no"),
            Err(refusal) => println!(self.rt; "answer={}", refusal.number()),
        }
    }
}

// The limits in force, in the order of the rules' table.
pub(crate) fn limits(rt: &impl Print) -> io::Result<()> {
    let most = values::limits::in_force();
    println!(rt;
        "limits: states={} atoms={} transitions={} nodes={} text={} formula={} kind={}",
        most.states, most.atoms, most.transitions, most.nodes, most.text, most.formula, most.kind
    )
}
