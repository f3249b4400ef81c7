// The bytes of a lent buffer that must stay.
// What a buffer holds before it is lent.
pub const FILL: u8 = 170;

// Whether every byte from `from` on is as it was before the buffer was lent.
pub fn untouched(buffer: &[u8], from: usize) -> bool {
    buffer.iter().skip(from).all(|byte| *byte == FILL)
}

// The first bytes, which are lent: `room`, or all where there are fewer.
pub fn lent(buffer: &mut [u8], room: usize) -> &mut [u8] {
    let count = room.min(buffer.len());
    &mut buffer[..count]
}
