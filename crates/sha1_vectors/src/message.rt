// Messages in a lent space.

// Each byte is the one before it and `step`, wrapping at 251.
pub fn fill(space: &mut [u8], first: u8, step: u8) {
    let mut next = first;
    for b in space {
        *b = next;
        next = ((next as u32 + step as u32) % 251) as u8;
    }
}
