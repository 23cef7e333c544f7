// A processor on a bench: in run, about to fetch, with RAM and a list of shows.
use board::script::Script;
use board::signals::{Announcement, CycleName, Direction, Record, Show};
use isa::operands::Register;
use memory::bytes::Ram;
use memory::meaning::Memory;
use processor::state::{Mode, Processor};
use std::alloc::{AllocError, Global};

#[derive(Drop)]
pub(crate) struct Bench {
    pub cpu: Processor,
    pub ram: Ram,
    pub board: Script,
    pub mode: Mode,
}

impl Bench {
    // R(0) is the program counter, at an address; RAM of so many zeroes.
    pub(crate) fn new(heap: Global, address: u16, size: usize) -> Result<Bench, AllocError> {
        let mut cpu = Processor::new();
        cpu.coming = Some(CycleName::Fetch);
        cpu.registers.set_reg(Register::R0, address);
        Ok(Bench {
            cpu,
            ram: Ram::new(vec![in heap; 0; size]?),
            board: Script::new(Vec::new(heap)),
            mode: Mode::Run,
        })
    }

    // Bytes from an address up.
    pub(crate) fn put(&mut self, address: u16, bytes: &[u8]) {
        for (offset, byte) in (0..=u16::MAX).zip(bytes) {
            self.ram.write(address.wrapping_add(offset), *byte);
        }
    }

    // Runs so many cycles.
    pub(crate) fn run(&mut self, cycles: u8) {
        for _ in 0..cycles {
            let _ = self.turn();
        }
    }

    // Runs one cycle, and answers its record.
    pub(crate) fn turn(&mut self) -> Option<Record> {
        self.cpu.cycle(self.mode, &mut self.ram, &mut self.board)
    }

    // R(W).
    pub(crate) fn r(&self, w: Register) -> u16 {
        self.cpu.registers.reg(w)
    }

    // The byte at an address.
    pub(crate) fn m(&self, address: u16) -> u8 {
        self.ram.read(address)
    }
}

// A show with a DMA-in line and a byte on the bus.
pub(crate) fn dma_in(bus: u8) -> Show {
    Show {
        dma_in: true,
        bus,
        ..Show::silent()
    }
}

pub(crate) fn dma_out() -> Show {
    Show {
        dma_out: true,
        ..Show::silent()
    }
}

pub(crate) fn interrupt() -> Show {
    Show {
        interrupt: true,
        ..Show::silent()
    }
}

// A show with a byte on the bus alone.
pub(crate) fn bus(byte: u8) -> Show {
    Show {
        bus: byte,
        ..Show::silent()
    }
}

// What is told of a cycle that uses no byte, with Q 0 and nothing on the N lines.
pub(crate) fn no_byte(name: CycleName) -> Record {
    Record {
        announcement: Announcement {
            name,
            lines: 0,
            q: false,
        },
        direction: Direction::Neither,
        address: 0x0000,
        byte: 0xff,
        q: false,
    }
}

// The same of a cycle that reads a byte.
pub(crate) fn read(name: CycleName, address: u16, byte: u8) -> Record {
    Record {
        direction: Direction::Read,
        address,
        byte,
        ..no_byte(name)
    }
}

// The same of a cycle that writes one.
pub(crate) fn written(name: CycleName, address: u16, byte: u8) -> Record {
    Record {
        direction: Direction::Write,
        ..read(name, address, byte)
    }
}

// The same with a number on the N lines.
pub(crate) fn on_lines(number: u8, record: Record) -> Record {
    Record {
        announcement: Announcement {
            lines: number,
            ..record.announcement
        },
        ..record
    }
}
