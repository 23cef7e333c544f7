// A group: one instruction with its operand bytes, or one byte that is none.
ghost use Rattle.std.specs.Prelude.{◌≡◌, ◌≤◌};
ghost use Rattle.listing.specs.Groups.{First, Front, said, whole};

use isa::instructions::{Instruction, decode};
use isa::operands::Operand;
use isa::table::Entry;

// Each case holds its part of the code; the station's rules name these five.
#[derive(Clone, Copy, Debug, PartialEq, Eq)]
pub enum Group<'a> {
    OneByte(Instruction, &'a [u8]),
    Immediate(Instruction, &'a [u8]),
    ShortBranch(Instruction, &'a [u8]),
    LongBranch(Instruction, &'a [u8]),
    Byte(&'a [u8]),
}

impl<'a> Group<'a> {
    // The group's part of the code.
    pub fn bytes(self) -> &'a [u8]
        ensures { result.now ≡ (said self.entry).bytes }
    {
        match self {
            Group::OneByte(_, bytes)
            | Group::Immediate(_, bytes)
            | Group::ShortBranch(_, bytes)
            | Group::LongBranch(_, bytes) => bytes,
            Group::Byte(bytes) => bytes,
        }
    }

    // The group's instruction; BYTE has none.
    pub fn instruction(self) -> Option<Instruction>
        ensures { result ≡ (said self.entry).instruction }
    {
        match self {
            Group::OneByte(instruction, _)
            | Group::Immediate(instruction, _)
            | Group::ShortBranch(instruction, _)
            | Group::LongBranch(instruction, _) => Some(instruction),
            Group::Byte(_) => None,
        }
    }
}

// The group at the start of the code, or none where there is no code.
pub fn first_group(code: &[u8]) -> Option<Group<'_>>
    ensures { First result code.now }
{
    let [opcode, ..] = code else {
        return None;
    };
    let Some(instruction) = decode(*opcode) else {
        return Some(Group::Byte(&code[0..1]));
    };
    match whole_bytes(Entry::of(*opcode).length, code) {
        Some(bytes) => Some(grouped(instruction, bytes)),
        None => Some(Group::Byte(&code[0..1])),
    }
}

// The first one, two or three bytes of the code, or none where they are cut off: by slice patterns, as the station's rules
// have it.
fn whole_bytes(length: u8, code: &[u8]) -> Option<&[u8]>
    requires { (1 ≤ length) × (length ≤ 3) }
    ensures { Front result length code.now }
{
    match (length, code) {
        (1, [_op, ..]) => Some(&code[0..1]),
        (2, [_op, _m, ..]) => Some(&code[0..2]),
        (3, [_op, _hi, _lo, ..]) => Some(&code[0..3]),
        _ => None,
    }
}

// The group of an instruction with its bytes.
fn grouped<'a>(instruction: Instruction, bytes: &'a [u8]) -> Group<'a>
    ensures { said result ≡ whole instruction bytes.now }
{
    match instruction.operand() {
        None | Some(Operand::Register(_) | Operand::Port(_)) => Group::OneByte(instruction, bytes),
        Some(Operand::Immediate) => Group::Immediate(instruction, bytes),
        Some(Operand::ShortTarget) => Group::ShortBranch(instruction, bytes),
        Some(Operand::LongTarget) => Group::LongBranch(instruction, bytes),
    }
}
