// What an instruction takes: one of sixteen registers, one of seven ports, or bytes that follow its opcode.
ghost use Rattle.std.specs.Prelude.{◌≡◌, ◌<◌};
ghost use Rattle.isa.specs.Operands.{digit_of, register_of, number_of};

use crate::digit::Digit;

// One of R(0) to R(F).
#[derive(Clone, Copy, Debug, PartialEq, Eq)]
pub enum Register {
    R0,
    R1,
    R2,
    R3,
    R4,
    R5,
    R6,
    R7,
    R8,
    R9,
    RA,
    RB,
    RC,
    RD,
    RE,
    RF,
}

// The register that a digit names. A match: read from a table of the sixteen it made a cycle a fifth longer.
impl From<Digit> for Register {
    ghost from_gives = { λ digit register. register ≡ register_of digit };

    fn from(digit: Digit) -> Register {
        match u8::from(digit) {
            0x0 => Register::R0,
            0x1 => Register::R1,
            0x2 => Register::R2,
            0x3 => Register::R3,
            0x4 => Register::R4,
            0x5 => Register::R5,
            0x6 => Register::R6,
            0x7 => Register::R7,
            0x8 => Register::R8,
            0x9 => Register::R9,
            0xa => Register::RA,
            0xb => Register::RB,
            0xc => Register::RC,
            0xd => Register::RD,
            0xe => Register::RE,
            _ => Register::RF,
        }
    }
}

impl Register {
    // The register's number, as the low digit of an opcode has it. An enum's number is had by `as` alone.
    pub fn digit(self) -> Digit
        ensures { result ≡ digit_of self }
    {
        Digit { value: self as u8 }
    }
}

// One of the seven ports of INP and OUT.
#[derive(Clone, Copy, Debug, PartialEq, Eq)]
pub enum Port {
    P1,
    P2,
    P3,
    P4,
    P5,
    P6,
    P7,
}

impl Port {
    // The port's number, 1 to 7.
    pub fn number(self) -> u8
        ensures value { result ≡ number_of self }
        ensures bound { result < 8 }
    {
        1 + self as u8
    }
}

// What stands behind a name in a line of a listing, where anything does.
#[derive(Clone, Copy, Debug, PartialEq, Eq)]
pub enum Operand {
    Register(Register),
    Port(Port),
    Immediate,
    ShortTarget,
    LongTarget,
}
