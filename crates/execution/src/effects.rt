// What an execute cycle does to the registers.
ghost use Rattle.std.specs.Prelude.{◌≡◌};
ghost use Rattle.execution.specs.Effects.{branched, executed, long_begun, long_ended, past_operand, returned, second_executed, skipped};
ghost use Rattle.registers.specs.Registers.{set_d, set_pair};

use alu::arithmetic::{add, subtract};
use alu::logic::{and, or, xor};
use alu::shifts::{shift_left, shift_right};
use isa::digit::Digit;
use isa::instructions::Instruction;
use isa::operands::{Operand, Register};
use registers::registers::Registers;

// The execute of an instruction, or its first one: `taken` says whether a branch or a skip is taken, and the byte is the one
// that the cycle read or wrote. They are two parameters: a skip goes by the one alone, most instructions by the other.
// The ten immediates have arms of their own; to see that an instruction is one would take a second match.
#[rattlefmt::skip]
pub fn execute(instruction: Instruction, registers: &mut Registers, taken: bool, byte: u8)
    ensures { registers.new ≡ executed instruction taken byte registers.old }
{
    let Registers { d, df, .. } = *registers;
    let target = taken.then_some(byte);
    match instruction {
        Instruction::Idl | Instruction::Str(_) | Instruction::Sav | Instruction::Nop => {}
        Instruction::Ldn(_) | Instruction::Inp(_) | Instruction::Ldx => registers.d = byte,
        Instruction::Inc(n) => registers.up(n), Instruction::Dec(n) => registers.down(n),
        Instruction::Irx | Instruction::Out(_) => registers.up(registers.x), Instruction::Stxd => registers.down(registers.x),
        Instruction::Lda(n) => { registers.d = byte; registers.up(n); }
        Instruction::Ldxa => { registers.d = byte; registers.up(registers.x); }
        Instruction::Ret => return_to(registers, byte, true), Instruction::Dis => return_to(registers, byte, false),
        Instruction::Mark => { registers.t = registers.xp(); registers.x = registers.p; registers.down(Register::R2); }
        Instruction::Req => registers.q = false, Instruction::Seq => registers.q = true,
        Instruction::Glo(n) => [_, registers.d] = registers.reg(n).to_be_bytes(),
        Instruction::Ghi(n) => [registers.d, _] = registers.reg(n).to_be_bytes(),
        Instruction::Plo(n) => registers.set_low(n, d), Instruction::Phi(n) => registers.set_high(n, d),
        Instruction::Sep(n) => registers.p = n, Instruction::Sex(n) => registers.x = n,
        Instruction::Or => registers.d = or(byte, d), Instruction::And => registers.d = and(byte, d), Instruction::Xor => registers.d = xor(byte, d),
        Instruction::Add => set_pair(registers, add(byte, d, false)), Instruction::Adc => set_pair(registers, add(byte, d, df)),
        Instruction::Sd => set_pair(registers, subtract(byte, d, true)), Instruction::Sdb => set_pair(registers, subtract(byte, d, df)),
        Instruction::Sm => set_pair(registers, subtract(d, byte, true)), Instruction::Smb => set_pair(registers, subtract(d, byte, df)),
        Instruction::Shr => set_pair(registers, shift_right(d, false)), Instruction::Shrc => set_pair(registers, shift_right(d, df)),
        Instruction::Shl => set_pair(registers, shift_left(d, false)), Instruction::Shlc => set_pair(registers, shift_left(d, df)),
        Instruction::Ldi => immediate(registers, byte), Instruction::Ori => immediate(registers, or(byte, d)),
        Instruction::Ani => immediate(registers, and(byte, d)), Instruction::Xri => immediate(registers, xor(byte, d)),
        Instruction::Adi => immediate_pair(registers, add(byte, d, false)), Instruction::Adci => immediate_pair(registers, add(byte, d, df)),
        Instruction::Sdi => immediate_pair(registers, subtract(byte, d, true)), Instruction::Sdbi => immediate_pair(registers, subtract(byte, d, df)),
        Instruction::Smi => immediate_pair(registers, subtract(d, byte, true)), Instruction::Smbi => immediate_pair(registers, subtract(d, byte, df)),
        Instruction::Br | Instruction::Bq | Instruction::Bz | Instruction::Bdf | Instruction::B1 | Instruction::B2 | Instruction::B3 |
        Instruction::B4 | Instruction::Bnq | Instruction::Bnz | Instruction::Bnf | Instruction::Bn1 | Instruction::Bn2 |
        Instruction::Bn3 | Instruction::Bn4 => branch(registers, target), Instruction::Skp => past_operand(registers),
        Instruction::Lbr | Instruction::Lbq | Instruction::Lbz | Instruction::Lbdf | Instruction::Lbnq | Instruction::Lbnz |
        Instruction::Lbnf => begin_long(registers, target),
        Instruction::Lsnq | Instruction::Lsnz | Instruction::Lsnf | Instruction::Lskp | Instruction::Lsie | Instruction::Lsq |
        Instruction::Lsz | Instruction::Lsdf => skip(registers, taken),
    }
}

// The second execute, of an instruction of class C: a long branch has a target; a long skip and NOP have no operand.
pub fn second_execute(instruction: Instruction, registers: &mut Registers, taken: bool, byte: u8)
    ensures { registers.new ≡ second_executed instruction taken byte registers.old }
{
    match instruction.operand() {
        Some(Operand::LongTarget) => end_long(registers, taken.then_some(byte)),
        _ => skip(registers, taken),
    }
}

// A byte and a carry → D and DF.
fn set_pair(registers: &mut Registers, pair: (u8, bool))
    ensures { registers.new ≡ set_pair pair.0 pair.1 registers.old }
{
    (registers.d, registers.df) = pair;
}

// A byte → D, and past the operand that gave it; the same with a carry. Two functions, as the first leaves DF alone.
fn immediate(registers: &mut Registers, d: u8)
    ensures { registers.new ≡ past_operand (set_d d registers.old) }
{
    registers.d = d;
    past_operand(registers);
}

fn immediate_pair(registers: &mut Registers, pair: (u8, bool))
    ensures { registers.new ≡ past_operand (set_pair pair.0 pair.1 registers.old) }
{
    set_pair(registers, pair);
    past_operand(registers);
}

// R(P)+1.
fn past_operand(registers: &mut Registers)
    ensures { registers.new ≡ past_operand registers.old }
{
    registers.up(registers.p);
}

// RET and DIS: the register of the old X is stepped.
#[tactic(auto, using(crate::proofs::Digits::high_alone))]
fn return_to(registers: &mut Registers, byte: u8, ie: bool)
    ensures { registers.new ≡ returned ie byte registers.old }
{
    registers.up(registers.x);
    registers.x = Register::from(Digit::high(byte));
    registers.p = Register::from(Digit::low(byte));
    registers.ie = ie;
}

// A short branch, with the operand of one that is taken: it goes to R(P).0, so the page is that of the operand.
fn branch(registers: &mut Registers, target: Option<u8>)
    ensures { registers.new ≡ branched target registers.old }
{
    match target {
        Some(low) => registers.set_low(registers.p, low),
        None => past_operand(registers),
    }
}

// The first half of a long branch: R(P).1 stays until the second.
fn begin_long(registers: &mut Registers, target: Option<u8>)
    ensures { registers.new ≡ long_begun target registers.old }
{
    if let Some(high) = target {
        registers.b = high;
    }
    past_operand(registers);
}

// The second half of a long branch.
fn end_long(registers: &mut Registers, target: Option<u8>)
    ensures { registers.new ≡ long_ended target registers.old }
{
    match target {
        Some(low) => registers.set_reg(registers.p, u16::from_be_bytes([registers.b, low])),
        None => past_operand(registers),
    }
}

// One half of a long skip.
fn skip(registers: &mut Registers, taken: bool)
    ensures { registers.new ≡ skipped taken registers.old }
{
    if taken {
        past_operand(registers);
    }
}
