// Operations on two bytes, bit by bit.
ghost use Rattle.std.specs.Prelude.{◌≡◌, ℕ, min, max, bit_and, bit_or, bit_xor};
ghost use Rattle.std.specs.Int.{bit_at};
ghost use Rattle.alu.specs.Logic.{unlike};

// A bit is 1 where it is 1 in either byte.
#[tactic(auto, using(std::proofs::lemmas::Nat::Bits::bit_at_or))]
pub fn or(m: u8, d: u8) -> u8
    ensures byte { result ≡ bit_or m d }
    ensures bits { (k : ℕ) → bit_at result k ≡ max (bit_at m k) (bit_at d k) }
{
    m | d
}

// A bit is 1 where it is 1 in both bytes.
#[tactic(auto, using(std::proofs::lemmas::Nat::Bits::bit_at_and))]
pub fn and(m: u8, d: u8) -> u8
    ensures byte { result ≡ bit_and m d }
    ensures bits { (k : ℕ) → bit_at result k ≡ min (bit_at m k) (bit_at d k) }
{
    m & d
}

// A bit is 1 where the two bytes differ.
#[tactic(auto, using(std::proofs::lemmas::Nat::Bits::bit_at_xor))]
pub fn xor(m: u8, d: u8) -> u8
    ensures byte { result ≡ bit_xor m d }
    ensures bits { (k : ℕ) → bit_at result k ≡ unlike (bit_at m k) (bit_at d k) }
{
    m ^ d
}
