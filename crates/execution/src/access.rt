// What an execute cycle does at the memory.
ghost use Rattle.std.specs.Prelude.{◌≡◌};
ghost use Rattle.execution.specs.Accesses.{execute_access, operand_if, second_access};

use isa::instructions::Instruction;
use isa::operands::{Operand, Register};
use registers::registers::Registers;

// The byte that a cycle reads, or writes.
#[derive(Clone, Copy, Debug, PartialEq, Eq)]
pub enum Access {
    Reads(u16),
    Writes(u16, u8),
}

// The access of an instruction's execute, or of its first one, if it uses a byte: `bus` is the one that the board shows,
// `taken` says whether a branch or a skip is taken. Arms that answer the same have at most sixteen alternatives each: with more
// the search comes close to its limits.
#[rattlefmt::skip]
pub fn execute_access(instruction: Instruction, registers: &Registers, bus: u8, taken: bool) -> Option<Access>
    ensures { result ≡ execute_access instruction registers.now bus taken }
{
    Some(match instruction {
        Instruction::Idl => Access::Reads(registers.reg(Register::R0)),
        Instruction::Ldn(n) | Instruction::Lda(n) => Access::Reads(registers.reg(n)),
        Instruction::Out(_) | Instruction::Ret | Instruction::Dis | Instruction::Ldxa |
        Instruction::Adc | Instruction::Sdb | Instruction::Smb | Instruction::Ldx | Instruction::Or | Instruction::And |
        Instruction::Xor | Instruction::Add | Instruction::Sd | Instruction::Sm => Access::Reads(registers.r_x()),
        Instruction::Ldi | Instruction::Ori | Instruction::Ani | Instruction::Xri | Instruction::Adi |
        Instruction::Sdi | Instruction::Smi | Instruction::Adci | Instruction::Sdbi | Instruction::Smbi =>
            Access::Reads(registers.r_p()),
        Instruction::Br | Instruction::Bq | Instruction::Bz | Instruction::Bdf |
        Instruction::B1 | Instruction::B2 | Instruction::B3 | Instruction::B4 |
        Instruction::Bnq | Instruction::Bnz | Instruction::Bnf |
        Instruction::Bn1 | Instruction::Bn2 | Instruction::Bn3 | Instruction::Bn4 => operand_if(registers, taken)?,
        Instruction::Lbr | Instruction::Lbq | Instruction::Lbz | Instruction::Lbdf |
        Instruction::Lbnq | Instruction::Lbnz | Instruction::Lbnf => operand_if(registers, taken)?,
        Instruction::Str(n) => Access::Writes(registers.reg(n), registers.d),
        Instruction::Stxd => Access::Writes(registers.r_x(), registers.d),
        Instruction::Inp(_) => Access::Writes(registers.r_x(), bus),
        Instruction::Sav => Access::Writes(registers.r_x(), registers.t),
        Instruction::Mark => Access::Writes(registers.reg(Register::R2), registers.xp()),
        Instruction::Inc(_) | Instruction::Dec(_) | Instruction::Irx | Instruction::Glo(_) | Instruction::Ghi(_) |
        Instruction::Plo(_) | Instruction::Phi(_) | Instruction::Sep(_) | Instruction::Sex(_) => return None,
        Instruction::Shr | Instruction::Shrc | Instruction::Shl | Instruction::Shlc | Instruction::Req |
        Instruction::Seq | Instruction::Skp | Instruction::Nop |
        Instruction::Lsnq | Instruction::Lsnz | Instruction::Lsnf | Instruction::Lskp |
        Instruction::Lsie | Instruction::Lsq | Instruction::Lsz | Instruction::Lsdf => return None,
    })
}

// The access of a second execute: a long branch that is taken reads, and nothing else does.
pub fn second_access(instruction: Instruction, registers: &Registers, taken: bool) -> Option<Access>
    ensures { result ≡ second_access instruction registers.now taken }
{
    match instruction.operand() {
        Some(Operand::LongTarget) => operand_if(registers, taken),
        _ => None,
    }
}

// A branch reads its operand only where it is taken.
fn operand_if(registers: &Registers, taken: bool) -> Option<Access>
    ensures { result ≡ operand_if taken registers.now }
{
    taken.then_some(Access::Reads(registers.r_p()))
}
