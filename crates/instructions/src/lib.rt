// The meaning of the processor: its record, its instructions and faults, and the calls of the host; definitions and
// laws only, no code.
#![tactic(auto)]
