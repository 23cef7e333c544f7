// The listing of a whole program.
ghost use Rattle.std.specs.Prelude.{◌≡◌, ◌+◌, ◌^◌, ◌<◌, vec_len, vec_capacity, MatchResult};
ghost use Rattle.listing.specs.Groups.{said};
ghost use Rattle.listing.specs.Program.{Added, Full, Lists, NoRoom};

use crate::code::{Code, Placed};
use crate::line::Line;
use std::alloc::AllocError;

// The lines of a program's groups, one after another, and how many groups there are: instructions and BYTE.
#[derive(Drop)]
pub struct Listing {
    pub text: Vec<u8>,
    pub instructions: usize,
    pub byte_groups: usize,
}

// Lists a program that begins at an address, behind a text. It fails for want of memory, and then only where the text had
// no room for the lines.
pub fn list_program(text: Vec<u8>, code: Code<'_>) -> Result<Listing, AllocError>
    ensures { MatchResult result (λ l. Lists text.items code.entry.address code.entry.bytes.now l) (λ _. NoRoom (vec_capacity text) (vec_len text) code.entry.address code.entry.bytes.now) }
{
    let mut listing = Listing {
        text,
        instructions: 0,
        byte_groups: 0,
    };
    for placed in code {
        listing.add(placed)?;
    }
    Ok(listing)
}

impl Listing {
    // The line of one group more.
    fn add(&mut self, placed: Placed<'_>) -> Result<(), AllocError>
        requires instructions { self.old.instructions + 1 < 2 ^ 64 }
        requires bytes { self.old.byte_groups + 1 < 2 ^ 64 }
        ensures { MatchResult result (λ _. Added placed.entry.address (said placed.entry.group) self.old self.new) (λ _. Full placed.entry.address (said placed.entry.group) self.old) }
    {
        let line = Line::of(placed);
        self.text.extend_from_slice(line.text())?;
        match placed.group.instruction() {
            Some(_) => self.instructions += 1,
            None => self.byte_groups += 1,
        }
        Ok(())
    }
}
