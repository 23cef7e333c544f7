// Shifts of a byte by one place. Each answers the byte and the bit that left it, which go to D and DF.
ghost use Rattle.std.specs.Prelude.{◌≡◌};
ghost use Rattle.alu.specs.Shifts.{left, left_bit, right, right_bit};

// To the right: the carry comes in at the high bit, and the low bit leaves. A shift to the left with that bit undoes it.
pub fn shift_right(d: u8, carried: bool) -> (u8, bool)
    ensures byte { result.0 ≡ right d carried }
    ensures flag { result.1 ≡ right_bit d }
    ensures undone { (left result.0 result.1 ≡ d) × (left_bit result.0 ≡ carried) }
{
    ((d >> 1) + (u8::from(carried) << 7), d % 2 == 1)
}

// To the left: the carry comes in at the low bit, and the high bit leaves. A shift to the right with that bit undoes it.
pub fn shift_left(d: u8, carried: bool) -> (u8, bool)
    ensures byte { result.0 ≡ left d carried }
    ensures flag { result.1 ≡ left_bit d }
    ensures undone { (right result.0 result.1 ≡ d) × (right_bit result.0 ≡ carried) }
{
    ((d << 1) + u8::from(carried), d >= 0x80)
}
