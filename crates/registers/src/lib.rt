// The processor's registers: fields, faults and the effect of each instruction, on plain values.
#![tactic(auto)]

pub mod decide;
pub mod execute;
pub mod faults;
pub mod fields;
pub mod finish;
pub mod record;
pub mod special;
pub mod suspend;
