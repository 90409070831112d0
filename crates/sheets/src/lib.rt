// The two sheets of the meter: a run from an empty cache, and the same run again with the cache as the run before
// left it.
#![tactic(auto)]

pub mod running;
pub mod sheet;
