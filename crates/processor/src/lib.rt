// The CDP1802, machine cycle by machine cycle, over any memory and any board.
//
// `state` has what a processor holds and which cycle is due, `steps` the parts of a cycle, each with its own definition:
// announce, what is taken, access, effect, what comes next. `transfer` makes the access at the memory, and `cycle` puts them together.
#![tactic(auto)]

pub mod cycle;
pub mod state;
pub mod steps;
pub mod transfer;
