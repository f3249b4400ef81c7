// The records that every layer shares: a task, a plan, and a refusal. What document 01 says of them is in specs/ and proofs/.
#![tactic(auto)]

pub mod bound;
pub mod edition;
pub mod limits;
pub mod refusal;

pub use refusal::{Refusal, Rule};

// Document 01's loop: separation T, budget C, priority offset Y, and document 02's deadline D, in ticks. In edition 1 the deadline is an unused
// place.
#[derive(Clone, Copy, PartialEq, Eq)]
pub struct Task {
    pub separation: u32,
    pub budget: u32,
    pub offset: u32,
    pub deadline: u32,
}

// A table's edition and entries, the slack, and the mark that says whether slack was offered (true) or found. Places from `cores` and `tasks` on
// are unused.
#[derive(Clone, Copy)]
pub struct Plan {
    pub edition: u8,
    pub offered: bool,
    pub cores: usize,
    pub tasks: usize,
    pub labels: [u8; 8],
    pub task: [Task; 16],
    pub slack: [u32; 16],
}
