// The calls of the host, by value: each takes any record and any lengths, and answers 0, a fault or a refusal by
// document 01's number.
#![tactic(auto)]

pub mod answer;
pub mod dropping;
pub mod listing;
pub mod restarts;
pub mod running;
pub mod transfers;
