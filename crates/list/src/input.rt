// What the program takes from standard input.
ghost use Rattle.std.specs.Prelude.{◌≡◌, ◌<◌, ◌≤◌, length, MatchResult};

use thiserror::Error;

// The input has more bytes than there are addresses.
#[derive(Clone, Copy, Debug, PartialEq, Eq, Error)]
#[error("more than 65536 bytes on standard input: a program has at most 65536, one for each address")]
pub struct TooLong;

// The program's bytes: all of the input, or a refusal where it has more than 65,536.
pub fn program_of(input: &[u8]) -> Result<&[u8], TooLong>
    ensures { MatchResult result (λ s. (s.now ≡ input.now) × (length input.now ≤ 65536)) (λ _. 65536 < length input.now) }
{
    if input.len() > 65536 {
        return Err(TooLong);
    }
    Ok(input)
}
