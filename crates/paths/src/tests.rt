// The tests of 15.
ghost use Rattle.std.specs.Prelude.{◌≡◌, leb};
ghost use Rattle.paths.specs.Refusals.{bad_level};

// Whether a level is not 1 or 2.
pub(crate) fn bad_level(level: u8) -> bool
    ensures { result ≡ bad_level level }
{
    if level == 1 {
        return false;
    }
    level != 2
}

// Whether a start is no state.
pub(crate) fn bad_start(states: usize, start: usize) -> bool
    ensures { result ≡ leb states start }
{
    states <= start
}
