// A hexadecimal digit: the halves of a byte, by which opcodes are read and written.
ghost use Rattle.std.specs.Prelude.{◌≡◌, ℕ, ◌/◌, ◌%◌, ◌<◌};

use std::marker::Model;

// One of 0 to F; a clause sees it as its number.
#[derive(Clone, Copy, Debug, PartialEq, Eq)]
pub struct Digit {
    pub(crate) value: u8,
}

impl Model for Digit {
    ghost Value = { ℕ };

    ghost view = { λ d. d.value };

    ghost invariant = { λ d. d.value < 16 };

    ghost inverse = { λ n. record { value = n } };
}

impl Digit {
    // The high digit of a byte.
    pub fn high(byte: u8) -> Digit
        ensures { result ≡ byte / 16 }
    {
        Digit { value: byte / 16 }
    }

    // The low digit of a byte.
    pub fn low(byte: u8) -> Digit
        ensures { result ≡ byte % 16 }
    {
        Digit { value: byte % 16 }
    }
}

// The digit's number.
impl From<Digit> for u8 {
    ghost from_gives = { λ digit number. (number ≡ digit) × (number < 16) };

    fn from(digit: Digit) -> u8 {
        digit.value
    }
}

impl From<Digit> for usize {
    ghost from_gives = { λ digit number. (number ≡ digit) × (number < 16) };

    fn from(digit: Digit) -> usize {
        usize::from(digit.value)
    }
}
