// The lines of a board file, laid into lent memory, signed and sealed.
#![tactic(auto)]

pub mod lines;
