// What the program that runs cases reads and prints: the words and numbers of a line, and the lines of a case.
#![tactic(auto)]

pub mod buffer;
pub mod line;
pub mod say;
