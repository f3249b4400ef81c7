// The engine: opening, release and step on the state, each as document 01 says; definitions are in the crate state.
#![tactic(auto)]

mod calls;
mod empty;

pub use calls::{Ticked, open, release, release_lent, step, step_lent};
