// From a show table's bytes to a plan.
#![tactic(auto)]

use tasks::{Plan, Refusal};

mod verdict;

pub use verdict::{judge, load, slack_part};

// A judgement's plan, of zeros where the table is refused, and beside it how many tasks were counted, and which, largest weight first. It is no Result:
// document 01 has a refused judgement hand back a plan of zeros.
#[derive(Clone, Copy)]
pub struct Judgement {
    pub answer: Result<(), Refusal>,
    pub plan: Plan,
    pub count: usize,
    pub counted: [u8; 8],
}
