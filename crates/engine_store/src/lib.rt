// A state read from lent words and written to them.
#![tactic(auto)]

pub mod put;
pub mod read;
