// Memories: for each of 65,536 addresses a byte, and whether the address keeps what is written to it.
//
// `meaning` has the trait that says what a memory is. `bytes` has the memories made of bytes, RAM and fixed ones, and
// `joined` is two memories as one.
#![tactic(auto)]

pub mod bytes;
pub mod joined;
pub mod meaning;
mod row;
#[cfg(test)]
mod tests;
