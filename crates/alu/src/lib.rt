// The arithmetic and logic of the processor: bytes in, a byte out, and with a sum, a difference or a shift the carry.
//
// `arithmetic` has sums and differences, `shifts` the two shifts, and `logic` the operations that go bit by bit.
#![tactic(auto)]

pub mod arithmetic;
pub mod logic;
pub mod shifts;
#[cfg(test)]
mod tests;
