// The board file: a text that says a board's memory, cache, keys, lines and what to run; here what it says but its
// lines.
#![tactic(auto)]

pub mod board;
