// Sums and differences of bytes. Each answers the byte and the carry together, which go to D and DF: by the station's rules a
// pair, in which both always count.
ghost use Rattle.std.specs.Prelude.{◌≡◌, ◌+◌, ◌*◌};
ghost use Rattle.std.specs.Int.{from_bool};
ghost use Rattle.alu.specs.Arithmetic.{sum, carry, difference, not_below, Exactly, Sign};

// m + d, and one more with a carry. The carry out is 1 for a sum above 255.
pub fn add(m: u8, d: u8, carried: bool) -> (u8, bool)
    ensures byte { result.0 ≡ sum m d carried }
    ensures flag { result.1 ≡ carry m d carried }
    ensures exact { result.0 + 256 * from_bool result.1 ≡ m + d + from_bool carried }
{
    m.carrying_add(d, carried)
}

// a − b, and one less without a carry, which is a borrow. The carry out is 1 for a difference not below 0.
pub fn subtract(a: u8, b: u8, carried: bool) -> (u8, bool)
    ensures byte { result.0 ≡ difference a b carried }
    ensures flag { result.1 ≡ not_below a b carried }
    ensures exact { Exactly a b carried result.0 result.1 }
    ensures sign { Sign a b carried result.1 }
{
    let (byte, borrowed) = a.borrowing_sub(b, !carried);
    (byte, !borrowed)
}
