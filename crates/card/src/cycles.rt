// Records of cycles, as the station tells them.
ghost use Rattle.std.specs.Prelude.{◌≡◌};
ghost use Rattle.card.specs.Cycles.{idle_record, port_record};
ghost use Rattle.board.specs.declared.signals.Direction.TheVariants.{Read, Write};

use board::signals::{Announcement, CycleName, Direction, Record};

// An idle cycle, which reads at R(0).
pub fn idle() -> Record
    ensures { result ≡ idle_record }
{
    Record {
        announcement: Announcement {
            name: CycleName::Idle,
            lines: 0,
            q: false,
        },
        direction: Direction::Read,
        address: 0,
        byte: 0,
        q: false,
    }
}

// The execute cycle of OUT, which reads memory.
pub fn out(port: u8, byte: u8) -> Record
    ensures { result ≡ port_record Read port byte }
{
    at_port(Direction::Read, port, byte)
}

// The execute cycle of INP, which writes memory.
pub fn inp(port: u8, byte: u8) -> Record
    ensures { result ≡ port_record Write port byte }
{
    at_port(Direction::Write, port, byte)
}

fn at_port(direction: Direction, port: u8, byte: u8) -> Record
    ensures { result ≡ port_record direction port byte }
{
    Record {
        announcement: Announcement {
            name: CycleName::Execute,
            lines: port,
            q: false,
        },
        direction,
        address: 0x8000,
        byte,
        q: false,
    }
}
