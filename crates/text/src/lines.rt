// Whole lines. Each lays its values into a table that is lent to it, once the line is accepted.
ghost use Rattle.std.specs.Prelude.{◌≡◌, ◌+◌, ◌*◌, ◌≤◌, length, drop};
ghost use Rattle.values.specs.Signs.{letters};
ghost use Rattle.values.specs.Refusal.{number_of};
ghost use Rattle.form.specs.Readers.{count_line, row_line, numbers_line, lines};
ghost use Rattle.form.specs.Form.{key_label};
ghost use Rattle.text.specs.Inside.{told, first, LineRead, LinesRead};

use super::cursor::{Cursor, Line};
use super::tables::lay_symbols;
use values::refusal::Refusal;

impl Cursor {
    // A line key=count, its count from least to most; else it is refused with the number.
    pub(crate) fn count_line(
        self,
        text: &[u8],
        key: &[u8],
        least: usize,
        most: usize,
        refusal: Refusal,
    ) -> Line
        ensures { told first text.now result ≡ count_line key.now least most (number_of refusal) (drop self.at text.now) }
    {
        let past = self.exactly(text, key);
        let Line::Read(_, _, c) = past else {
            return past;
        };
        let counted = c.number(text, b'\n');
        let Line::Read(count, _, _) = counted else {
            return counted;
        };
        let n = count as usize;
        if !(least..=most).contains(&n) {
            return Line::Refused(refusal);
        }
        counted
    }

    // A line key=symbols, n of them, into out from a place on.
    // kept: key, signs and n by themselves: a struct of them would be made at two calls, to be opened here.
    pub(crate) fn row_line(
        self,
        text: &[u8],
        key: &[u8],
        signs: &[u8],
        n: usize,
        out: &mut [u8],
        to: usize,
    ) -> Line
        requires { (length signs.now ≤ 255) × (to + n ≤ length out.old) }
        ensures { LineRead (row_line key.now signs.now n (drop self.at text.now))
            text.now to out.old out.new result }
    {
        let past = self.exactly(text, key);
        let Line::Read(_, _, c) = past else {
            return past;
        };
        let row = c.symbols(text, signs, n);
        let Line::Read(_, _, d) = row else {
            return row;
        };
        let line = d.exactly(text, b"\n");
        let Line::Read(_, _, next) = line else {
            return line;
        };
        let from = c.at;
        lay_symbols(text, from, signs, n, out, to);
        Line::Read(0, 0, next)
    }

    // A line key=a,b or key=a,b,c of W numbers, into out from a place on.
    pub(crate) fn numbers_line<const W: usize>(
        self,
        text: &[u8],
        key: &[u8],
        out: &mut [u16],
        to: usize,
    ) -> Line
        requires { to + W ≤ length out.old }
        ensures { LineRead (numbers_line key.now W (drop self.at text.now))
            text.now to out.old out.new result }
    {
        let past = self.exactly(text, key);
        let Line::Read(_, _, c) = past else {
            return past;
        };
        let mut held = [0u16; W];
        let line = c.numbers(text, &mut held);
        let Line::Read(_, _, next) = line else {
            return line;
        };
        out[to..to + W].copy_from_slice(&held);
        Line::Read(0, 0, next)
    }

    // A line of labels a state, into the front of out.
    // kept: the twin of number_lines: one loop over a step would hold the table in a closure, where no contract can name it.
    pub(crate) fn label_lines(
        self,
        text: &[u8],
        atoms: usize,
        states: usize,
        out: &mut [u8],
    ) -> Line
        requires { atoms * states ≤ length out.old }
        ensures { LinesRead (lines (row_line key_label letters atoms) states (drop self.at text.now))
            text.now (atoms * states) out.old out.new result }
    {
        let mut c = self;
        for k in 0..states {
            let line = c.row_line(text, b"label=", b"FUT", atoms, out, atoms * k);
            let Line::Read(_, _, next) = line else {
                return line;
            };
            c = next;
        }
        Line::Read(0, 0, c)
    }

    // n lines of W numbers, into the front of out.
    // kept: a place in out for each line: of a table lent in parts by chunks_exact_mut nothing is known after the loop.
    pub(crate) fn number_lines<const W: usize>(
        self,
        text: &[u8],
        key: &[u8],
        n: usize,
        out: &mut [u16],
    ) -> Line
        requires { W * n ≤ length out.old }
        ensures { LinesRead (lines (numbers_line key.now W) n (drop self.at text.now))
            text.now (W * n) out.old out.new result }
    {
        let mut c = self;
        for k in 0..n {
            let line = c.numbers_line::<W>(text, key, out, W * k);
            let Line::Read(_, _, next) = line else {
                return line;
            };
            c = next;
        }
        Line::Read(0, 0, c)
    }
}
