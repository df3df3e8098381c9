// Numbers in a frame: the digits before it, and lines of numbers with commas between them.
ghost use Rattle.std.specs.Prelude.{◌≤◌, length};

// The number that decimal digits say.
pub(crate) fn decimal(digits: &[u8]) -> u64 {
    digits.iter().fold(0, |number: u64, digit| {
        number.wrapping_mul(10).wrapping_add(u64::from(*digit % 16))
    })
}

// The first entries of a list, or none where it has fewer.
pub(crate) fn front<T>(list: &[T], n: usize) -> &[T] {
    list.get(..n).unwrap_or(&[])
}

// The lines of a frame's body that are still to be read.
#[derive(Clone, Copy)]
pub(crate) struct Lines<'a> {
    pub(crate) rest: &'a [u8],
}

impl<'a> Lines<'a> {
    // The lines from a place of a body on.
    pub(crate) fn from(body: &'a [u8], at: usize) -> Lines<'a> {
        Lines {
            rest: body.get(at..).unwrap_or(&[]),
        }
    }

    // The next line without its line feed; empty where there is none.
    pub(crate) fn line(&mut self) -> &'a [u8] {
        let rest = self.rest;
        match rest.iter().position(|byte| *byte == b'\n') {
            Some(end) => {
                self.rest = &rest[end + 1..];
                &rest[..end]
            }
            None => {
                self.rest = &[];
                rest
            }
        }
    }

    // The numbers of the next line at the front of a list of zeros, each made an entry; how many there are.
    fn entries<T, F: Fn(u64) -> T>(&mut self, list: &mut [T], entry: F) -> usize
    where
        T: Drop,
        requires { F.IsAlwaysCallable entry }
        ensures { result ≤ length list.new }
    {
        let line = self.line();
        if line.is_empty() {
            return 0;
        }
        let most = list.len();
        for (place, digits) in list.iter_mut().zip(line.split(|byte| *byte == b',')) {
            *place = entry(decimal(digits));
        }
        line.split(|byte| *byte == b',').count().min(most)
    }

    pub(crate) fn numbers(&mut self, list: &mut [u16]) -> usize {
        self.entries(list, |number| (number % 65536) as u16)
    }

    pub(crate) fn bytes(&mut self, list: &mut [u8]) -> usize {
        self.entries(list, |number| (number % 256) as u8)
    }
}
