// The static library for the terminal's C firmware: the functions of `listing::c` under their C names.
// include/station_listing.h says the same to a C programmer.
#![tactic(auto)]

ghost use Rattle.std.specs.Prelude.{◌≡◌};
ghost use Rattle.isa.specs.Table.{entry_of};
ghost use Rattle.listing.specs.ForC.{told};
ghost use Rattle.listing.specs.Lines.{line_answer, line_buffer};

use isa::table::Entry;
use listing::c;

// The table's entry for an opcode.
#[unsafe(no_mangle)]
pub extern "C" fn station_opcode(opcode: u8) -> Entry
    ensures { result ≡ entry_of opcode }
{
    c::station_opcode(opcode)
}

// Writes the line of the first group into the buffer, whose other bytes stay.
#[unsafe(no_mangle)]
pub extern "C" fn station_list_line(address: u16, code: &[u8], buffer: &mut [u8]) -> c::LineAnswer
    ensures answer { told result ≡ line_answer address code.now buffer.old }
    ensures buffer { buffer.new ≡ line_buffer address code.now buffer.old }
{
    c::station_list_line(address, code, buffer)
}
