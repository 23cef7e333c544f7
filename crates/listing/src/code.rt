// Code bytes, taken group by group.
ghost use Rattle.std.specs.Prelude.{◌≡◌, length};
ghost use Rattle.std.specs.Iterator.{at_most};
ghost use Rattle.listing.specs.Code.{TakesFirst};

use crate::groups::{Group, first_group};

// A group with its address.
#[derive(Clone, Copy, Debug, PartialEq, Eq)]
pub struct Placed<'a> {
    pub address: u16,
    pub group: Group<'a>,
}

// Code bytes, and the address of the first. As an iterator it gives the groups in order.
#[derive(Drop)]
pub struct Code<'a> {
    pub address: u16,
    pub bytes: &'a [u8],
}

impl<'a> Code<'a> {
    // These bytes, the first of which stands at this address.
    pub fn at(address: u16, bytes: &'a [u8]) -> Code<'a>
        ensures address { result.address ≡ address }
        ensures bytes { result.bytes.now ≡ bytes.now }
    {
        Code { address, bytes }
    }
}

impl<'a> Iterator for Code<'a> {
    type Item = Placed<'a>;

    ghost next_gives = { TakesFirst };

    ghost remaining = { λ code. at_most (length code.bytes.now) };

    // The group at the start; the code behind it is left. Addresses wrap past FFFF.
    fn next(&mut self) -> Option<Placed<'a>> {
        let group = first_group(self.bytes)?;
        let placed = Placed {
            address: self.address,
            group,
        };
        // at most 3, so that `as` loses nothing
        let size = group.bytes().len();
        self.address = self.address.wrapping_add(size as u16);
        self.bytes = &self.bytes[size..];
        Some(placed)
    }
}
