// The cache on lent buffers: lines are evicted from and filled into slots, as the cached memory of the model does it.
#![tactic(auto)]

pub mod buffers;
mod parts;
pub mod slots;
pub mod whole;
