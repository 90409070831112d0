// The pages of the meter: its sentences, words and columns on standard output, and sheets as text and as rows.
#![tactic(auto)]

pub mod book;
pub mod printing;
pub mod rows;
