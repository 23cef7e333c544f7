// Two memories as one.
ghost use Rattle.std.specs.Prelude.{◌≡◌};
ghost use Rattle.memory.specs.Store.{joined_of, parts};
ghost use Rattle.std.proofs.Common.{rules};

use crate::meaning::Memory;

// The lower memory has the addresses below the boundary; the upper one, counted from 0000, has the others.
#[derive(Drop)]
pub struct Joined<L, U> {
    lower: L,
    upper: U,
    boundary: u16,
}

impl<L, U> Joined<L, U> {
    pub fn new(lower: L, upper: U, boundary: u16) -> Joined<L, U>
        ensures { (result.lower ≡ lower) × (result.upper ≡ upper) × (result.boundary ≡ boundary) }
    {
        Joined {
            lower,
            upper,
            boundary,
        }
    }

    // The two memories again.
    pub fn into_parts(self) -> (L, U)
        ensures { (result.0 ≡ self.lower) × (result.1 ≡ self.upper) }
    {
        (self.lower, self.upper)
    }
}

impl<L: Memory, U: Memory> Memory for Joined<L, U> {
    ghost store = { λ m. joined_of m.boundary (L.Memory.store m.lower) (U.Memory.store m.upper) };

    ghost form = { λ m. parts m.boundary (L.Memory.form m.lower) (U.Memory.form m.upper) };

    ghost bytes = { Prim.search rules };

    fn read(&self, address: u16) -> u8 {
        if address < self.boundary {
            self.lower.read(address)
        } else {
            self.upper.read(address - self.boundary)
        }
    }

    fn write(&mut self, address: u16, byte: u8) {
        if address < self.boundary {
            self.lower.write(address, byte);
        } else {
            self.upper.write(address - self.boundary, byte);
        }
    }
}
