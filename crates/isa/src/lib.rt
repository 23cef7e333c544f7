// The instruction set of the CDP1802, said once.
//
// `table` holds each opcode's length and machine cycles, `digit` the halves of a byte, `operands` the registers, ports and
// forms of operand, `instructions` the one decoding of an opcode, and `names` what Appendix A of RCA's manual calls each
// instruction.
#![tactic(auto)]

pub mod digit;
pub mod instructions;
pub mod names;
pub mod operands;
pub mod table;
