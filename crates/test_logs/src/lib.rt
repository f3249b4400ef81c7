// Cases of release logs: what `run_log` answers to a table and a log and leaves in the lent answer, and the lines that a case prints.
#![tactic(auto)]

pub mod run;
