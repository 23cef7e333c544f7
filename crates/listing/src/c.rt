// The functions for the terminal's C firmware. The crate `listing_c` exports them under their C names: it is a static library, so
// that a caller in Rattle has them here.
ghost use Rattle.std.specs.Prelude.{◌≡◌};
ghost use Rattle.isa.specs.Table.{entry_of};
ghost use Rattle.listing.specs.ForC.{told};
ghost use Rattle.listing.specs.Lines.{answered, line_answer, line_buffer};

use crate::code::Code;
use crate::lines::{Listed, Refusal, list_line};
use isa::table::Entry;

// What C is told of a line: the refusal's number, or 0, and the lengths of line and group. C has no Result.
#[repr(C)]
#[derive(Clone, Copy, Debug, PartialEq, Eq)]
pub struct LineAnswer {
    pub number: u8,
    pub line: u8,
    pub group: u8,
}

impl From<Result<Listed, Refusal>> for LineAnswer {
    ghost from_gives = { λ answer to_c. told to_c ≡ answered answer };

    fn from(answer: Result<Listed, Refusal>) -> LineAnswer {
        match answer {
            Ok(listed) => LineAnswer {
                number: 0,
                line: listed.line,
                group: listed.group,
            },
            Err(refusal) => LineAnswer {
                number: refusal.number(),
                line: 0,
                group: 0,
            },
        }
    }
}

// The table's entry for an opcode.
pub fn station_opcode(opcode: u8) -> Entry
    ensures { result ≡ entry_of opcode }
{
    Entry::of(opcode)
}

// Writes the line of the first group into the buffer, whose other bytes stay.
pub fn station_list_line(address: u16, code: &[u8], buffer: &mut [u8]) -> LineAnswer
    ensures answer { told result ≡ line_answer address code.now buffer.old }
    ensures buffer { buffer.new ≡ line_buffer address code.now buffer.old }
{
    LineAnswer::from(list_line(Code::at(address, code), buffer))
}
