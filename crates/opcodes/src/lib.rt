// The instructions of the machine, by document 01's opcodes.
#![tactic(auto)]

pub mod opcode;
