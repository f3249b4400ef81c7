// The program `plan`: judges the table on standard input and prints its plan or its refusal. Document 01, "Worked tables".
// What it prints is the contract of `text::text`; here is what is read and written.
#![tactic(auto)]

// The file descriptors of standard input and output.
const STDIN_FILENO: i32 = 0;

const STDOUT_FILENO: i32 = 1;

// Longer input than this is cut off, which changes no text: `text`'s law `long-text`.
const MOST: usize = 5360;

fn main() {
    let mut input = [0u8; MOST];
    let length = io::read_full(STDIN_FILENO, &mut input);
    let mut out = [0u8; text::LONGEST];
    let end = text::text(&input[..length], &mut out);
    io::write_all(STDOUT_FILENO, &out[..end]);
}
