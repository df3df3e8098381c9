// A stream's bytes read into a space of fixed size, lent by the caller: no memory is asked for.
#![tactic(auto)]

ghost use Rattle.std.specs.Prelude.{◌≡◌, ℕ, ◌+◌, ◌<◌, ◌≤◌, length, take, drop, IfOk, OnErr};
ghost use Rattle.std.specs.Io.KnownBytes.{Keeps, Consumes, IsAtEnd};
ghost use Rattle.std.specs.Io.{ReadsAtMost};

use std::io;
use std::io::{ErrorKind, Read};

// One read, tried anew where a signal broke it off.
pub fn read_some<R: Read>(reader: &mut R, space: &mut [u8]) -> io::Result<usize>
    ensures bound { ReadsAtMost result space.new }
    ensures given { IfOk result (λ n. Consumes (R.remaining reader.old) (R.remaining reader.new) (take n space.new)) }
    ensures end { IfOk result (λ n. n ≡ 0 → 0 < length space.new → IsAtEnd (R.remaining reader.new)) }
    ensures failed { OnErr result (Keeps (R.remaining reader.old) (R.remaining reader.new)) }
{
    for _ in 0..u64::MAX {
        match reader.read(space) {
            Err(error) if error.kind() == ErrorKind::Interrupted => {}
            got => return got,
        }
    }
    reader.read(space)
}

// One read behind the first n bytes of a space, which stay.
// kept: n beside the space, since what stays is the front that is not read into.
fn read_behind<R: Read>(reader: &mut R, space: &mut [u8], n: usize) -> io::Result<usize>
    requires { n < length space.old }
    ensures front { take n space.new ≡ take n space.old }
    ensures within { IfOk result (λ more. n + more ≤ length space.new) }
    ensures given { IfOk result (λ more. Consumes (R.remaining reader.old) (R.remaining reader.new) (take more (drop n space.new))) }
    ensures end { IfOk result (λ more. more ≡ 0 → IsAtEnd (R.remaining reader.new)) }
    ensures failed { OnErr result (Keeps (R.remaining reader.old) (R.remaining reader.new)) }
{
    read_some(reader, &mut space[n..])
}

// Reads until the space is full, the stream ends or a read fails; how many bytes of the space were read. A stream that ended is not read again.
// After a failure what was read before it stands at the front of the space.
pub fn fill<R: Read>(reader: &mut R, space: &mut [u8]) -> io::Result<usize>
    ensures within { IfOk result (λ n. n ≤ length space.new) }
    ensures given { IfOk result (λ n. Consumes (R.remaining reader.old) (R.remaining reader.new) (take n space.new)) }
    ensures end { IfOk result (λ n. n < length space.new → IsAtEnd (R.remaining reader.new)) }
    ensures failed { OnErr result ((n : ℕ) × (n < length space.new) × Consumes (R.remaining reader.old) (R.remaining reader.new) (take n space.new)) }
{
    let mut n: usize = 0;
    // kept: each turn goes on by as many bytes as a read gave, which no range counts
    while n < space.len() {
        let more = read_behind(reader, space, n)?;
        if more == 0 {
            return Ok(n);
        }
        n += more;
    }
    Ok(n)
}
