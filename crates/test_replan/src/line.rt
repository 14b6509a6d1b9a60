// A line of text: words up to a colon, then numbers, each followed by a space.

// The place of the first colon, or the end.
pub(crate) fn colon(text: &[u8]) -> usize {
    text.iter().position(|&b| b == b':').unwrap_or(text.len())
}

// The number with a digit more, in 32 bits.
fn with_digit(x: u32, byte: u8) -> u32 {
    (((x as u64) * 10 + u64::from(byte % 48)) % 4294967296) as u32
}

// The numbers of a text; 0 where there are no more. What stands after the last space is none.
pub(crate) fn numbers_in(text: &[u8]) -> [u32; 512] {
    let mut numbers = [0; 512];
    let mut n = 0;
    let end = text.iter().rposition(|&b| b == b' ').unwrap_or(0);
    for word in text[..end].split(|&b| b == b' ') {
        if n < 512 {
            numbers[n] = word.iter().fold(0, |x, &byte| with_digit(x, byte));
            n += 1;
        }
    }
    numbers
}
