// Which branches and skips are taken.
ghost use Rattle.std.specs.Prelude.{◌≡◌};
ghost use Rattle.execution.specs.Conditions.{taken};

use board::signals::Show;
use isa::instructions::Instruction;
use registers::registers::Registers;

// Whether a branch or a skip is taken, by the registers and by the flags shown in the cycle. No other instruction is.
#[rattlefmt::skip]
pub fn taken(instruction: Instruction, registers: &Registers, show: Show) -> bool
    ensures { result ≡ taken instruction registers.now show }
{
    match instruction {
        Instruction::Br | Instruction::Lbr | Instruction::Lskp => true,
        Instruction::Bq | Instruction::Lbq | Instruction::Lsq => registers.q,
        Instruction::Bz | Instruction::Lbz | Instruction::Lsz => registers.d == 0,
        Instruction::Bdf | Instruction::Lbdf | Instruction::Lsdf => registers.df,
        Instruction::B1 => show.ef1,
        Instruction::B2 => show.ef2,
        Instruction::B3 => show.ef3,
        Instruction::B4 => show.ef4,
        Instruction::Bnq | Instruction::Lbnq | Instruction::Lsnq => !registers.q,
        Instruction::Bnz | Instruction::Lbnz | Instruction::Lsnz => registers.d != 0,
        Instruction::Bnf | Instruction::Lbnf | Instruction::Lsnf => !registers.df,
        Instruction::Bn1 => !show.ef1,
        Instruction::Bn2 => !show.ef2,
        Instruction::Bn3 => !show.ef3,
        Instruction::Bn4 => !show.ef4,
        Instruction::Lsie => registers.ie,
        _ => false,
    }
}
