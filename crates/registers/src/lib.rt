// The processor's registers: what they are, and how R(0) to R(F) are read, stepped and loaded.
#![tactic(auto)]

pub mod registers;
pub mod scratchpad;
