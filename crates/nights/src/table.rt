// A row of pieces, a mark behind each.

// Piece k of a row, without the mark that is behind it; empty where there is none.
pub(crate) fn piece(row: &[u8], k: usize, mark: u8) -> &[u8] {
    row.split(|byte| *byte == mark).nth(k).unwrap_or(&[])
}
