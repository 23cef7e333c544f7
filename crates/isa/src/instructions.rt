// The instructions, and the one decoding of an opcode that everything above goes through.
ghost use Rattle.std.specs.Prelude.{◌≡◌};
ghost use Rattle.isa.specs.Instructions.{decoded, class_3, class_6, class_7, class_c, class_f};
ghost use Rattle.isa.specs.Laws.{InAppendixA, AsLongAsTable};

use crate::digit::Digit;
use crate::operands::{Port, Register};

// The instructions by their names in Appendix A of RCA's manual. LDN takes R(1) to R(F): the opcode 00 is IDL.
#[derive(Clone, Copy, Debug, PartialEq, Eq)]
pub enum Instruction {
    Idl,
    Ldn(Register),
    Inc(Register),
    Dec(Register),
    Br,
    Bq,
    Bz,
    Bdf,
    B1,
    B2,
    B3,
    B4,
    Skp,
    Bnq,
    Bnz,
    Bnf,
    Bn1,
    Bn2,
    Bn3,
    Bn4,
    Lda(Register),
    Str(Register),
    Irx,
    Out(Port),
    Inp(Port),
    Ret,
    Dis,
    Ldxa,
    Stxd,
    Adc,
    Sdb,
    Shrc,
    Smb,
    Sav,
    Mark,
    Req,
    Seq,
    Adci,
    Sdbi,
    Shlc,
    Smbi,
    Glo(Register),
    Ghi(Register),
    Plo(Register),
    Phi(Register),
    Lbr,
    Lbq,
    Lbz,
    Lbdf,
    Nop,
    Lsnq,
    Lsnz,
    Lsnf,
    Lskp,
    Lbnq,
    Lbnz,
    Lbnf,
    Lsie,
    Lsq,
    Lsz,
    Lsdf,
    Sep(Register),
    Sex(Register),
    Ldx,
    Or,
    And,
    Xor,
    Add,
    Sd,
    Shr,
    Sm,
    Ldi,
    Ori,
    Ani,
    Xri,
    Adi,
    Sdi,
    Shl,
    Smi,
}

// The instruction of an opcode; 68 has none.
#[tactic(auto, using(crate::proofs::Decoding::in_appendix_a, crate::proofs::Decoding::as_long_as_table))]
pub fn decode(opcode: u8) -> Option<Instruction>
    ensures value { result ≡ decoded opcode }
    ensures row { InAppendixA opcode result }
    ensures length { AsLongAsTable opcode result }
{
    by_class(opcode)
}

// The same without the laws, which are shown above once for all the ways through here: by the high digit, the class, and
// then by the low one. In one function the search did not find the laws on the last of the ways.
fn by_class(opcode: u8) -> Option<Instruction>
    ensures { result ≡ decoded opcode }
{
    let low = Digit::low(opcode);
    let register = Register::from(low);
    Some(match u8::from(Digit::high(opcode)) {
        0x0 if u8::from(low) == 0 => Instruction::Idl,
        0x0 => Instruction::Ldn(register),
        0x1 => Instruction::Inc(register),
        0x2 => Instruction::Dec(register),
        0x3 => class_3(low),
        0x4 => Instruction::Lda(register),
        0x5 => Instruction::Str(register),
        0x6 => return class_6(low),
        0x7 => class_7(low),
        0x8 => Instruction::Glo(register),
        0x9 => Instruction::Ghi(register),
        0xa => Instruction::Plo(register),
        0xb => Instruction::Phi(register),
        0xc => class_c(low),
        0xd => Instruction::Sep(register),
        0xe => Instruction::Sex(register),
        _ => class_f(low),
    })
}

// Class 3, by its low digit. This class and the next four are matches, and not tables of sixteen read in one place: with tables
// a cycle took over a third longer.
fn class_3(low: Digit) -> Instruction
    ensures { result ≡ class_3 low }
{
    match u8::from(low) {
        0x0 => Instruction::Br,
        0x1 => Instruction::Bq,
        0x2 => Instruction::Bz,
        0x3 => Instruction::Bdf,
        0x4 => Instruction::B1,
        0x5 => Instruction::B2,
        0x6 => Instruction::B3,
        0x7 => Instruction::B4,
        0x8 => Instruction::Skp,
        0x9 => Instruction::Bnq,
        0xa => Instruction::Bnz,
        0xb => Instruction::Bnf,
        0xc => Instruction::Bn1,
        0xd => Instruction::Bn2,
        0xe => Instruction::Bn3,
        _ => Instruction::Bn4,
    }
}

// Class 6, by its low digit.
fn class_6(low: Digit) -> Option<Instruction>
    ensures { result ≡ class_6 low }
{
    Some(match u8::from(low) {
        0x0 => Instruction::Irx,
        0x1 => Instruction::Out(Port::P1),
        0x2 => Instruction::Out(Port::P2),
        0x3 => Instruction::Out(Port::P3),
        0x4 => Instruction::Out(Port::P4),
        0x5 => Instruction::Out(Port::P5),
        0x6 => Instruction::Out(Port::P6),
        0x7 => Instruction::Out(Port::P7),
        0x8 => return None,
        0x9 => Instruction::Inp(Port::P1),
        0xa => Instruction::Inp(Port::P2),
        0xb => Instruction::Inp(Port::P3),
        0xc => Instruction::Inp(Port::P4),
        0xd => Instruction::Inp(Port::P5),
        0xe => Instruction::Inp(Port::P6),
        _ => Instruction::Inp(Port::P7),
    })
}

// Class 7, by its low digit.
fn class_7(low: Digit) -> Instruction
    ensures { result ≡ class_7 low }
{
    match u8::from(low) {
        0x0 => Instruction::Ret,
        0x1 => Instruction::Dis,
        0x2 => Instruction::Ldxa,
        0x3 => Instruction::Stxd,
        0x4 => Instruction::Adc,
        0x5 => Instruction::Sdb,
        0x6 => Instruction::Shrc,
        0x7 => Instruction::Smb,
        0x8 => Instruction::Sav,
        0x9 => Instruction::Mark,
        0xa => Instruction::Req,
        0xb => Instruction::Seq,
        0xc => Instruction::Adci,
        0xd => Instruction::Sdbi,
        0xe => Instruction::Shlc,
        _ => Instruction::Smbi,
    }
}

// Class C, by its low digit.
fn class_c(low: Digit) -> Instruction
    ensures { result ≡ class_c low }
{
    match u8::from(low) {
        0x0 => Instruction::Lbr,
        0x1 => Instruction::Lbq,
        0x2 => Instruction::Lbz,
        0x3 => Instruction::Lbdf,
        0x4 => Instruction::Nop,
        0x5 => Instruction::Lsnq,
        0x6 => Instruction::Lsnz,
        0x7 => Instruction::Lsnf,
        0x8 => Instruction::Lskp,
        0x9 => Instruction::Lbnq,
        0xa => Instruction::Lbnz,
        0xb => Instruction::Lbnf,
        0xc => Instruction::Lsie,
        0xd => Instruction::Lsq,
        0xe => Instruction::Lsz,
        _ => Instruction::Lsdf,
    }
}

// Class F, by its low digit.
fn class_f(low: Digit) -> Instruction
    ensures { result ≡ class_f low }
{
    match u8::from(low) {
        0x0 => Instruction::Ldx,
        0x1 => Instruction::Or,
        0x2 => Instruction::And,
        0x3 => Instruction::Xor,
        0x4 => Instruction::Add,
        0x5 => Instruction::Sd,
        0x6 => Instruction::Shr,
        0x7 => Instruction::Sm,
        0x8 => Instruction::Ldi,
        0x9 => Instruction::Ori,
        0xa => Instruction::Ani,
        0xb => Instruction::Xri,
        0xc => Instruction::Adi,
        0xd => Instruction::Sdi,
        0xe => Instruction::Shl,
        _ => Instruction::Smi,
    }
}
