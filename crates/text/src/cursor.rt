// The reader's place in the text, and what it reads within a line.
ghost use Rattle.std.specs.Prelude.{◌≡◌, ◌+◌, ◌≤◌, length, drop};
ghost use Rattle.values.specs.Signs.{digits};
ghost use Rattle.form.specs.Readers.{exactly, number, place_of, may_grow, symbols, numbers};
ghost use Rattle.text.specs.Inside.{told, nothing, first, bare, taken};

use values::refusal::Refusal;

// kept: a form that a rule of the project names: the reader hands its advanced place on.
// kept: the text beside the place: a cursor that held the rest would put its lifetime on Line and all that hands one on, for a parameter less.
#[derive(Clone, Copy)]
pub struct Cursor {
    pub at: usize,
}

// What reading a line, or a part of one, finds.
// kept: a form that a rule of the project names: opened with `let .. else`, and a refusal returned at once.
#[derive(Clone, Copy)]
pub enum Line {
    // Its numbers, 0 where it carries fewer than two, and the place after it.
    Read(u16, u16, Cursor),
    // The text ends where the line could go on.
    Ends,
    Refused(Refusal),
}

impl Line {
    // Its numbers and the place after it. A text that ends too soon breaks the form.
    pub(crate) fn accepted(self) -> Result<(u16, u16, Cursor), Refusal>
        ensures { result ≡ taken self }
    {
        match self {
            Line::Read(x, y, c) => Ok((x, y, c)),
            Line::Ends => Err(Refusal::TextForm),
            Line::Refused(refusal) => Err(refusal),
        }
    }
}

// The place of a byte among some signs, or how many they are.
pub(crate) fn place_of(signs: &[u8], b: u8) -> u8
    requires { length signs.now ≤ 255 }
    ensures { result ≡ place_of signs.now b }
{
    signs.iter().position(|&g| g == b).unwrap_or(signs.len()) as u8
}

// The value of a decimal digit, 10 for any other byte.
// kept: 10 and no Option, as the form counts: the place among the ten digits, or how many they are.
fn digit(b: u8) -> u32
    ensures { result ≡ place_of digits b }
{
    place_of(b"0123456789", b) as u32
}

// Whether a number n may go on with a digit d.
#[tactic(auto, unfolding(form::specs::Readers::may_grow))]
fn may_grow(n: u32, d: u32) -> bool
    requires { n ≤ 65535 }
    ensures { result ≡ may_grow n d }
{
    0 < n && d < 10 && n * 10 + d <= 65535
}

impl Cursor {
    // Exactly these bytes.
    // kept: the place goes on beside the bytes, as the form's steps do; an index from 0 would be added to it at each byte.
    #[tactic(auto, using(form::proofs::Steps::exactly_steps))]
    pub(crate) fn exactly(self, text: &[u8], bytes: &[u8]) -> Line
        ensures { told nothing text.now result ≡ exactly bytes.now (drop self.at text.now) }
    {
        let mut i = self.at;
        for &k in bytes {
            if text.len() <= i {
                return Line::Ends;
            }
            let b = text[i];
            if b != k {
                return Line::Refused(Refusal::TextForm);
            }
            i += 1;
        }
        Line::Read(0, 0, Cursor { at: i })
    }

    // A decimal number and the byte stop after it.
    #[tactic(auto, using(form::proofs::Steps::number_steps))]
    pub(crate) fn number(self, text: &[u8], stop: u8) -> Line
        ensures { told first text.now result ≡ number stop (drop self.at text.now) }
    {
        let at = self.at;
        if text.len() <= at {
            return Line::Ends;
        }
        let mut n = digit(text[at]);
        if 10 <= n {
            return Line::Refused(Refusal::TextForm);
        }
        for i in at + 1..text.len() {
            let b = text[i];
            if b == stop {
                return Line::Read(n as u16, 0, Cursor { at: i + 1 });
            }
            let d = digit(b);
            if !may_grow(n, d) {
                return Line::Refused(Refusal::TextForm);
            }
            n = n * 10 + d;
        }
        Line::Ends
    }

    // n symbols, each one of the signs.
    // kept: the place goes on beside the count, as the form's steps do; that self.at + n is a usize nothing says.
    #[tactic(auto, using(crate::proofs::Bare::symbols_steps))]
    pub(crate) fn symbols(self, text: &[u8], signs: &[u8], n: usize) -> Line
        requires { length signs.now ≤ 255 }
        ensures { told nothing text.now result ≡ bare (symbols signs.now n (drop self.at text.now)) }
    {
        let mut i = self.at;
        for _j in 0..n {
            if text.len() <= i {
                return Line::Ends;
            }
            let v = place_of(signs, text[i]) as usize;
            if signs.len() <= v {
                return Line::Refused(Refusal::TextForm);
            }
            i += 1;
        }
        Line::Read(0, 0, Cursor { at: i })
    }

    // As many numbers as held has entries, up to the line's end.
    pub(crate) fn numbers(self, text: &[u8], held: &mut [u16]) -> Line
        ensures { told (λ x y. held.new) text.now result ≡ numbers (length held.old) (drop self.at text.now) }
    {
        let w = held.len();
        let mut c = self;
        for j in 0..w {
            let line = c.number(text, values::signs::stop_before(w - (j + 1)));
            let Line::Read(n, _, next) = line else {
                return line;
            };
            held[j] = n;
            c = next;
        }
        Line::Read(0, 0, c)
    }
}
