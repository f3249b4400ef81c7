// The engine's state as document 01 keeps it, and what the calls on it answer. What document 01 says of them is in specs/ and proofs/.
#![tactic(auto)]

use tasks::{Plan, Refusal};

// The plan, the clock, and for each of sixteen tasks its number of unfinished jobs, whether a release of it was taken, the last taken
// one's tick, and sixteen job places, oldest job first: "the state keeps all 256 job places in one flat record".
#[derive(Clone, Copy)]
pub struct State {
    pub plan: Plan,
    pub clock: u32,
    pub jobs: [usize; 16],
    pub released: [bool; 16],
    pub last: [u32; 16],
    pub remaining: [u32; 256],
    pub release: [u32; 256],
}

// An opening: Accepted, with the opened state, or refused, with a state of zeros. This struct and the next two hold a state beside their answer, and
// are no Result: document 01 says which state a refused call hands back.
#[derive(Clone, Copy)]
pub struct Opened {
    pub answer: Result<(), Refusal>,
    pub state: State,
}

// A release: Accepted where it is taken, or refused, with the state handed in.
#[derive(Clone, Copy)]
pub struct Released {
    pub answer: Result<(), Refusal>,
    pub state: State,
}

// A step: Accepted with the state one tick later, or refused, with the state handed in. `runs` has the task that ran on each core, or 255
// for an idle one; `responses` has finish tick minus release tick of each task that finished, 0 for the others.
#[derive(Clone, Copy)]
pub struct Stepped {
    pub answer: Result<(), Refusal>,
    pub state: State,
    pub runs: [u8; 8],
    pub responses: [u32; 16],
}
