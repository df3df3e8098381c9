// A place in a formula's text, where a reader begins or ends. What the type holds no reader needs to ask.
ghost use Rattle.std.specs.Prelude.{◌+◌, ◌≤◌, length};
ghost use Rattle.values.specs.Limits.{most_formula};

// The rest of the text from there, and the next node's number.
#[derive(Clone, Copy)]
pub(crate) struct Place<'a> {
    pub(crate) rest: &'a [u8],
    pub(crate) nodes: usize,
    pub(crate) ghost few: { nodes + length rest.now ≤ most_formula },
}
