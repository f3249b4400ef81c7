// Tests 9 and 10, and slack: the amount A of a slack, whether it is compliant, and the search for the smallest that is.
#![tactic(auto)]

pub mod amount;
pub mod rates;
pub mod vector;
