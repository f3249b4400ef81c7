// A release log's bytes, and the bytes of a log run's answer. Document 01, "Release logs".
#![tactic(auto)]

pub mod read;
pub mod report;
