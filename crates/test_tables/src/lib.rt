// Cases of tables and plans: tables in the making, what `judge`, `slack_part` and `write` answer to them, and the lines that a case prints.
#![tactic(auto)]

pub mod draft;
pub mod judged;
pub mod written;
