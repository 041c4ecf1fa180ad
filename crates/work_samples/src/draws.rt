// Numbers that are drawn.

/// The number of three numbers: each bit of it depends on all bits of them.
pub fn draw(seed: u32, first: u32, second: u32) -> u32 {
    let mut state = seed.wrapping_mul(2654435761).wrapping_add(first);
    state = (state ^ state >> 16).wrapping_mul(2146121005);
    state = state.wrapping_add(second);
    state = (state ^ state >> 15).wrapping_mul(2221713035);
    state ^ state >> 16
}
