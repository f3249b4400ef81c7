// The analysis of a plan: its test by the refusals 1, 3 to 13 and 28, and the slack that it has.
#![tactic(auto)]

mod plan_test;
pub mod slack_test;

pub use plan_test::{plan_bounds, slack_count, test};
