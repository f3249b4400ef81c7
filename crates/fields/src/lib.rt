// A plan field by field: the tests that read its entries alone (the refusals 3 to 8, 26 and 28, and 13 with the slack that is handed in).
#![tactic(auto)]

pub mod bounds;
pub mod columns;
pub mod frame;
pub mod ranges;
