// The file that is lent to the indoor end. No two of its whole blocks are alike, so that it shows which one went out.

// The bytes at even places depend on the low byte of the block's number, those at odd places on its high byte too.
// Both sums are cut to a byte on purpose: a `TryFrom` would fail where they wrap.
fn byte(at: usize) -> u8 {
    let low = at % 256 + at / 256;
    if at % 2 == 0 {
        return (low % 256) as u8;
    }
    ((low + at / 65536) % 256) as u8
}

pub(crate) fn fill(file: &mut [u8]) {
    for (at, place) in file.iter_mut().enumerate() {
        *place = byte(at);
    }
}

// Whether these are the file's bytes from this block's place on. They are computed anew, so that a change of the lent memory shows.
pub(crate) fn is_block(number: u16, block: &[u8]) -> bool {
    let from = 256 * usize::from(number);
    (from..).zip(block).all(|(at, b)| *b == byte(at))
}
