// The byte that a cycle reads or writes.
ghost use Rattle.std.specs.Prelude.{◌≡◌};
ghost use Rattle.processor.specs.Transfers.{store_after, transfer_of};

use board::signals::Direction;
use execution::access::Access;
use memory::meaning::Memory;

// Which way the byte went, where, and the byte. A cycle that uses none has the address 0000 and the byte FF, as a board is told
// so. A board's record has the three beside its announcement and Q, not one level down.
#[derive(Clone, Copy, Debug, PartialEq, Eq)]
pub struct Transfer {
    pub direction: Direction,
    pub address: u16,
    pub byte: u8,
}

// Makes an access at a memory, if there is one, and says what was transferred.
pub fn touch<M: Memory>(memory: &mut M, access: Option<Access>) -> Transfer
    ensures transfer { result ≡ transfer_of access (M.store memory.old) }
    ensures after { M.store memory.new ≡ store_after access (M.store memory.old) }
    ensures built { M.form memory.new ≡ M.form memory.old }
{
    match access {
        Some(Access::Reads(address)) => Transfer {
            direction: Direction::Read,
            address,
            byte: memory.read(address),
        },
        Some(Access::Writes(address, byte)) => {
            memory.write(address, byte);
            Transfer {
                direction: Direction::Write,
                address,
                byte,
            }
        }
        None => Transfer {
            direction: Direction::Neither,
            address: 0x0000,
            byte: 0xff,
        },
    }
}
