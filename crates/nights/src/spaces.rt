// Lent spaces: the pattern that they are filled with, their fronts, and whether they are what they were.

// What stands in a lent space before a call: no value, no entry of an initial list, no state of a small model.
pub(crate) const PATTERN: u8 = 9;

pub(crate) const PATTERN_NUMBER: u16 = PATTERN as u16;

// The first n entries, or all where there are fewer.
// kept: numerals' front is of bytes alone, and nights has no other need of that crate.
pub(crate) fn front<T>(list: &[T], n: usize) -> &[T] {
    list.get(..n).unwrap_or(list)
}

// Whether two lists are the same from a place on.
pub(crate) fn kept<T: PartialEq>(now: &[T], before: &[T], from: usize) -> bool {
    now.get(from..).unwrap_or(&[]) == before.get(from..).unwrap_or(&[])
}
