// What a call answers beside its work: the machine's faults and the refusals, each by document 01's number and name.
#![tactic(auto)]

pub mod faults;
pub mod refusals;
