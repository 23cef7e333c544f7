// What an instruction does in its execute cycles: at the memory, and to the registers.
//
// Three tables over the instructions: `conditions` says which branches and skips are taken, `access` which byte an execute
// reads or writes, and `effects` what it does to the registers.
#![tactic(auto)]

pub mod access;
pub mod conditions;
pub mod effects;
