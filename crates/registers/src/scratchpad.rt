// R(0) to R(F): how they are read, stepped and loaded. Sums wrap between FFFF and 0000.
ghost use Rattle.std.specs.Prelude.{◌≡◌, ◌/◌, ◌%◌};
ghost use Rattle.isa.specs.Operands.{digit_of};
ghost use Rattle.isa.specs.declared.operands.Register.{Register as register};
ghost use Rattle.registers.specs.Registers.{reg, r_p, r_x, xp, set_reg, up, down, set_low, set_high};

use crate::registers::Registers;
use isa::operands::Register;

impl Registers {
    // R(W).
    pub fn reg(&self, w: Register) -> u16
        ensures { result ≡ reg w self.now }
    {
        self.r[usize::from(w.digit())]
    }

    // R(X), which addresses data.
    pub fn r_x(&self) -> u16
        ensures { result ≡ r_x self.now }
    {
        self.reg(self.x)
    }

    // R(P), the program counter.
    pub fn r_p(&self) -> u16
        ensures { result ≡ r_p self.now }
    {
        self.reg(self.p)
    }

    // X,P as one byte, X its high digit.
    pub fn xp(&self) -> u8
        ensures { result ≡ xp self.now }
    {
        16 * u8::from(self.x.digit()) + u8::from(self.p.digit())
    }

    // A word → R(W), and no other register changes.
    pub fn set_reg(&mut self, w: Register, value: u16)
        ensures after { self.new ≡ set_reg w value self.old }
        ensures loaded { reg w self.new ≡ value }
        ensures others { (v : register) → (digit_of v ≡ digit_of w → ⊥) → reg v self.new ≡ reg v self.old }
    {
        let place = usize::from(w.digit());
        self.r[place] = value;
    }

    // R(W)+1.
    pub fn up(&mut self, w: Register)
        ensures { self.new ≡ up w self.old }
    {
        let value = self.reg(w).wrapping_add(1);
        self.set_reg(w, value);
    }

    // R(W)−1.
    pub fn down(&mut self, w: Register)
        ensures { self.new ≡ down w self.old }
    {
        let value = self.reg(w).wrapping_sub(1);
        self.set_reg(w, value);
    }

    // A byte → R(W).0; R(W).1 stays.
    pub fn set_low(&mut self, w: Register, byte: u8)
        ensures after { self.new ≡ set_low w byte self.old }
        ensures low { reg w self.new % 256 ≡ byte }
        ensures high { reg w self.new / 256 ≡ reg w self.old / 256 }
    {
        let [high, _] = self.reg(w).to_be_bytes();
        self.set_reg(w, u16::from_be_bytes([high, byte]));
    }

    // A byte → R(W).1; R(W).0 stays.
    pub fn set_high(&mut self, w: Register, byte: u8)
        ensures after { self.new ≡ set_high w byte self.old }
        ensures low { reg w self.new % 256 ≡ reg w self.old % 256 }
        ensures high { reg w self.new / 256 ≡ byte }
    {
        let [_, low] = self.reg(w).to_be_bytes();
        self.set_reg(w, u16::from_be_bytes([byte, low]));
    }
}
