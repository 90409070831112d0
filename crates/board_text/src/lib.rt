// The text of a board file: its lines, its words, and the statement that each line makes.
#![tactic(auto)]

pub mod lines;
pub mod names;
pub mod numbers;
mod shape;
pub mod statement;
mod words;
