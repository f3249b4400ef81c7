// A case of `step_in_place`: what it answers and leaves in the lent state, beside what `step` hands back.
use crate::calls::answered;
use crate::same::{same_state, same_step};
use state::{State, Stepped};
use test_script::say;

// The answer of a call, and the state that was lent to it.
fn lend(mut state: State) -> (Stepped, State) {
    let stepped = live::step_in_place(&mut state);
    (stepped, state)
}

pub fn lent(name: &[u8], state: State) {
    say::case(b"lent ", name);
    let (stepped, there) = lend(state);
    answered(b"step in place", stepped.answer);
    let other = engine::step(state);
    say::fact(b"it answers as step does", same_step(stepped, other));
    say::fact(
        b"it leaves what step hands back",
        same_state(there, other.state),
    );
    say::fact(b"it leaves what was lent", same_state(there, state));
}
