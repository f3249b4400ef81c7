// Runs the cases of a script on standard input, a line at a time, and prints what came back. docs/TESTING.md has the words that a line may
// have. The stored output is worked out from documents 01 and 02 by other means.
#![tactic(auto)]

mod act;

use test_world::world::World;

// The file descriptor of standard input.
const STDIN_FILENO: i32 = 0;

// A longer script is cut off: the library reads a stream into an array that it is lent.
const MOST: usize = 131072;

fn run(script: &[u8]) {
    let mut world = World::new();
    for line in script.split(|byte| *byte == b'\n') {
        act::line(&mut world, line);
    }
}

fn main() {
    let mut script = [0u8; MOST];
    let length = io::read_full(STDIN_FILENO, &mut script);
    run(&script[..length]);
}
