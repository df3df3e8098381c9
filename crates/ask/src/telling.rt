// The lines of the answer, written out: its number, a line a part, the last row and the model's verdict.
use answer::MOST_LINE;
use sheet::Sheet;
use std::io;
use values::limits::{MOST_FORMULA, MOST_NODE_NUMBERS, MOST_NODES};

// A formula that was judged on a model: the sheet, and the verdict space that goes with it.
#[derive(Drop)]
pub(crate) struct Judged<'a> {
    pub(crate) sheet: Sheet,
    pub(crate) verdicts: &'a [u8],
}

impl<'a> Judged<'a> {
    // Line k of the whole answer.
    // kept: desk, nights and replay write a sheet's line too: of what is printed no contract says anything, so a shared function could promise nothing.
    fn line(&self, rt: &impl Print, k: usize) -> io::Result<()> {
        let mut buffer = [0u8; MOST_LINE];
        let Ok(Some(n)) = sheet::write_line(self.sheet, self.verdicts, k, &mut buffer) else {
            return Ok(());
        };
        rt.write_all(&buffer[..n])
    }

    pub(crate) fn number(&self, rt: &impl Print) -> io::Result<()> {
        self.line(rt, 0)
    }

    // Every part of the formula, operands first, each with its row.
    pub(crate) fn parts(&self, rt: &impl Print, formula: &[u8]) -> io::Result<()> {
        if self.sheet.number != 0 {
            return Ok(());
        }
        let mut nodes = [0u16; MOST_NODE_NUMBERS];
        let Ok(n) = formula::read_formula(formula, &mut nodes) else {
            return Ok(());
        };
        let mut text = [0u8; MOST_FORMULA];
        for k in 0..n {
            part(rt, &nodes, k, &mut text)?;
            self.line(rt, k + 1)?;
        }
        Ok(())
    }

    // The last row and the model's verdict.
    pub(crate) fn whole(&self, rt: &impl Print) -> io::Result<()> {
        let nodes = self.sheet.nodes;
        if self.sheet.number != 0 || MOST_NODES < nodes {
            return Ok(());
        }
        self.line(rt, nodes)?;
        self.line(rt, nodes + 1)
    }
}

// The text of a part, in a space that is lent for it.
fn part(rt: &impl Print, nodes: &[u16], k: usize, text: &mut [u8]) -> io::Result<()> {
    let Ok(n) = formula::print_part(nodes, k, text) else {
        return Ok(());
    };
    let Some(part) = text.get(..n) else {
        return Ok(());
    };
    rt.write_all(b"part=")?;
    rt.write_all(part)?;
    rt.write_all(b" ")
}
