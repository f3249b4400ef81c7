// The words of a line, on standard output.

// Its file descriptor.
const STDOUT_FILENO: i32 = 1;

pub fn text(words: &[u8]) {
    io::write_all(STDOUT_FILENO, words);
}

// A case's first line: its kind, as a table, a plan or a call, and its name.
pub fn case(kind: &[u8], name: &[u8]) {
    text(b"case ");
    text(kind);
    text(name);
    text(b"\n");
}

// Words and the number after them.
pub fn number(words: &[u8], value: u64) {
    text(words);
    io::print_decimal(STDOUT_FILENO, value);
}

// A line that says whether something holds.
pub fn fact(words: &[u8], holds: bool) {
    text(words);
    if holds {
        text(b" yes\n");
    } else {
        text(b" no\n");
    }
}

pub fn refusal(words: &[u8], number_met: u8, index: u16) {
    text(words);
    number(b" refused ", u64::from(number_met));
    number(b" at ", u64::from(index));
    text(b"\n");
}

// A line of bytes, in decimal.
pub fn bytes(words: &[u8], part: &[u8]) {
    text(words);
    if part.is_empty() {
        text(b" empty");
    }
    for byte in part {
        number(b" ", u64::from(*byte));
    }
    text(b"\n");
}

// The first line of a plan that a call accepted.
pub fn accepted(words: &[u8], edition_met: u8, cores: usize, loops: usize, offered: bool) {
    text(words);
    edition(edition_met);
    number(b" cores ", cores as u64);
    number(b" loops ", loops as u64);
    if offered {
        text(b" slack offered\n");
    } else {
        text(b" slack found\n");
    }
}

// The edition, where it is not 1.
pub fn edition(edition: u8) {
    if edition != 1 {
        number(b" edition ", u64::from(edition));
    }
}

// A loop's deadline and its late, which edition 2 has.
pub fn deadline(edition: u8, deadline: u32, bound: u64) {
    if edition == 2 {
        number(b" deadline ", u64::from(deadline));
        number(b" late ", bound.saturating_sub(u64::from(deadline)));
    }
}
