// A sentence's case: what `sentence` answers and what it leaves in the lent buffer.
#![tactic(auto)]

use tasks::Refusal;
use test_script::buffer::{FILL, lent, untouched};
use test_script::line::front;
use test_script::say;

// "later bytes stay", and of a refused call "nothing is written".
fn say_told(composed: Result<usize, Refusal>, buffer: &[u8; 300]) {
    match composed {
        Ok(length) => {
            say::text(front(buffer, length));
            say::text(b"\n");
            say::fact(b"later bytes stay", untouched(buffer, length));
        }
        Err(Refusal { number, index }) => {
            say::refusal(b"sentence", number, index);
            say::fact(b"the buffer is unchanged", untouched(buffer, 0));
        }
    }
}

// Any number, index and value.
pub fn told(number: u32, index: u32, value: u64, room: usize) {
    let mut buffer = [FILL; 300];
    let composed = sentence::sentence(number, index, value, lent(&mut buffer, room));
    say_told(composed, &buffer);
}
