// A case of an opening: what it answers, and the state that it hands back.
use crate::made::zeros;
use crate::same::{same_jobs, same_state};
use tasks::{Plan, Refusal};
use test_same_plan::{same_plan, unused_zero};
use test_script::say;

// A line with an answer.
pub fn answered(words: &[u8], answer: Result<(), Refusal>) {
    match answer {
        Ok(()) => {
            say::text(words);
            say::text(b" accepted\n");
        }
        Err(Refusal { number, index }) => say::refusal(words, number, index),
    }
}

pub fn open(name: &[u8], plan: Plan) {
    say::case(b"open ", name);
    let opened = engine::open(plan);
    let answer = opened.answer;
    let state = opened.state;
    answered(b"open", answer);
    let Ok(()) = answer else {
        say::fact(b"the state is of zeros", same_state(state, zeros()));
        return;
    };
    let table = state.plan;
    say::number(b"clock ", state.clock as u64);
    say::text(b"\n");
    // nothing is pending, so every place is unused
    say::fact(b"unused job places are zero", same_jobs(state, zeros()));
    say::fact(b"the table part is the plan's", same_plan(table, plan));
    say::fact(b"its unused places are zero", unused_zero(table));
}
