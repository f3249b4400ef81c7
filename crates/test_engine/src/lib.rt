// Cases of states: states in the making, and what an opening of a plan and `step_in_place` answer. The other calls of the engine are tried by the
// tests of rust/dahomike_engine.
#![tactic(auto)]

pub mod calls;
pub mod lent;
pub mod made;
mod same;
