// Offsets and slack for a wish sheet: document 02, §3.
#![tactic(auto)]

mod leap;
pub mod search;
pub mod solve;
