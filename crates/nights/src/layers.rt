// Texts of formulas as deep as a limit allows: a core in so many layers, each with an opening before and a closing behind.
ghost use Rattle.std.specs.Prelude.{◌≤◌, length};

use crate::table::piece;
use values::limits::MOST_FORMULA;

// How many layers: so many, as many as the limit of the text has room for, or one more.
#[derive(Clone, Copy)]
pub(crate) enum Depth {
    Layers(usize),
    Fitting,
    OneMore,
}

impl Depth {
    // The layers around a core of so many bytes, where a layer has so many.
    fn layers(self, core: usize, layer: usize) -> usize {
        let fitting = MOST_FORMULA
            .saturating_sub(core)
            .checked_div(layer)
            .unwrap_or(0);
        match self {
            Depth::Layers(n) => n,
            Depth::Fitting => fitting,
            Depth::OneMore => fitting.saturating_add(1),
        }
    }
}

// Puts a piece so many times at a place of a page, as far as the page goes; the place behind it.
// kept: the place beside the page, since the next piece goes by it.
fn repeat(page: &mut [u8], at: usize, piece: &[u8], times: usize) -> usize
    requires { at ≤ length page.old }
    ensures { result ≤ length page.new }
{
    let mut place = at;
    for _ in 0..times {
        let n = piece.len().min(page.len() - place);
        page[place..place + n].copy_from_slice(&piece[..n]);
        place += n;
    }
    place
}

// The text of a code, at the front of a page; how many bytes it has. The code is an opening, a core and a closing, a comma behind each.
pub(crate) fn write(page: &mut [u8], depth: Depth, code: &[u8]) -> usize {
    let opening = piece(code, 0, b',');
    let core = piece(code, 1, b',');
    let closing = piece(code, 2, b',');
    let n = depth.layers(core.len(), opening.len() + closing.len());
    let a = repeat(page, 0, opening, n);
    let b = repeat(page, a, core, 1);
    repeat(page, b, closing, n)
}
