// The cache's directory: its packed numbers, and which line may sit in which slot. Nobody else knows either.
#![tactic(auto)]

pub mod number;
pub mod place;
pub mod tag;
