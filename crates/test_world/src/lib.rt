// What the lines of a script make: a table and a log, and a plan.
#![tactic(auto)]

pub mod drafts;
pub mod plans;
pub mod world;
