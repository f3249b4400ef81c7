// The entry of a task and the places of the sections in a table's bytes. Document 01, "Bytes of a show table".
#![tactic(auto)]

pub mod entry;
pub mod places;
