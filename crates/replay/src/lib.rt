// The run of a release log. Document 01, "Release logs".
#![tactic(auto)]

mod run;

pub use run::{Ran, run_log};
