// The numbers of a board file, and the numbers of its errors.
#![tactic(auto)]

pub mod errors;
pub mod number;
