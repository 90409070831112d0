// The machine: memory phases, one instruction, and run.
#![tactic(auto)]

pub mod answer;
pub mod phase;
pub mod run;
pub mod step;
