// The outer face: each call of the host with the processor's record lent by reference, under a plain name that C can
// link.
#![tactic(auto)]

pub mod dropping;
pub mod listing;
pub mod restarts;
pub mod running;
pub mod signing;
pub mod transfers;
