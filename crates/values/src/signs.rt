// The signs of a text's and an answer's lines.
ghost use Rattle.std.specs.Prelude.{◌≡◌};
ghost use Rattle.values.specs.Signs.{stop_before};

// What stands after a number of a line that has so many more: a comma, or at the line's end a line feed.
pub fn stop_before(left: usize) -> u8
    ensures { result ≡ stop_before left }
{
    if left == 0 { b'\n' } else { b',' }
}
