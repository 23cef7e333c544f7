// The processor's registers.
ghost use Rattle.std.specs.Prelude.{◌≡◌, ◌<◌};
ghost use Rattle.registers.specs.Registers.{Sized, class_i, digit_n, fresh};

use isa::digit::Digit;
use isa::operands::Register;

// X and P are one of sixteen by their type, I and N by being the digits of a byte.
#[derive(Clone, Copy, Debug, PartialEq, Eq)]
pub struct Registers {
    // R(0) to R(F)
    pub r: [u16; 16],
    pub d: u8,
    // X and P as they were before an interrupt or a MARK
    pub t: u8,
    // the first operand byte of a long branch
    pub b: u8,
    pub df: bool,
    pub ie: bool,
    pub q: bool,
    pub x: Register,
    pub p: Register,
    // I and N: the high and the low digit of the opcode that was fetched last
    pub opcode: u8,
}

impl Registers {
    // The registers of a new processor: IE is 1, and all else is 0.
    pub fn new() -> Registers
        ensures { result ≡ fresh }
    {
        Registers {
            r: [0; 16],
            d: 0,
            t: 0,
            b: 0,
            df: false,
            ie: true,
            q: false,
            x: Register::R0,
            p: Register::R0,
            opcode: 0,
        }
    }

    // I, the class of the opcode that was fetched last.
    pub fn i(&self) -> Digit
        ensures { result ≡ class_i self.now }
    {
        Digit::high(self.opcode)
    }

    // N, its low digit.
    pub fn n(&self) -> Digit
        ensures { result ≡ digit_n self.now }
    {
        Digit::low(self.opcode)
    }

    // There are sixteen R registers, and D, T, B and the opcode are bytes. A proof learns that of registers that it looks
    // into; at run time nothing is left of it. A ghost field would say it too, but then no definition could write registers
    // down.
    pub fn sized(&self)
        ensures { Sized self.now }
    {
        let _first = self.r[0];
    }
}
