// What a processor holds, and which cycle is due.
ghost use Rattle.std.specs.Prelude.{◌≡◌};
ghost use Rattle.processor.specs.Cycles.{due, fresh};
ghost use Rattle.registers.specs.Registers.{Sized};

use board::signals::CycleName;
use isa::instructions::{Instruction, decode};
use registers::registers::Registers;

#[derive(Clone, Copy, Debug, PartialEq, Eq)]
pub struct Processor {
    pub registers: Registers,
    // the coming cycle; with none the processor is stopped
    pub coming: Option<CycleName>,
}

// A cycle that is due; an execute has its instruction with it, which its name alone has not.
#[derive(Clone, Copy, Debug, PartialEq, Eq)]
pub enum Cycle {
    Initialise,
    Fetch,
    Execute(Instruction),
    SecondExecute(Instruction),
    Idle,
    DmaIn,
    DmaOut,
    Interrupt,
}

// The modes in which cycles are run.
#[derive(Clone, Copy, Debug, PartialEq, Eq)]
pub enum Mode {
    Load,
    Run,
}

impl Processor {
    // A new processor: IE is 1, all else is 0, and the initialising cycle comes.
    pub fn new() -> Processor
        ensures { result ≡ fresh }
    {
        Processor {
            registers: Registers::new(),
            coming: Some(CycleName::Initialise),
        }
    }

    // The cycle that is due, or none where the processor is stopped; an execute of 68, to which no cycle leads, is none too.
    // The opcode is decoded here and nowhere else in a cycle. `sized` is what the types of the registers say. The processor is
    // lent, and this is part of `cycle`: a copy of it, with an answer that went through memory, made a cycle longer.
    #[inline(always)]
    pub fn due(&self) -> Option<Cycle>
        ensures value { result ≡ due self.now }
        ensures sized { Sized self.now.registers }
    {
        self.registers.sized();
        Some(match self.coming? {
            CycleName::Initialise => Cycle::Initialise,
            CycleName::Fetch => Cycle::Fetch,
            CycleName::Execute => Cycle::Execute(decode(self.registers.opcode)?),
            CycleName::SecondExecute => Cycle::SecondExecute(decode(self.registers.opcode)?),
            CycleName::Idle => Cycle::Idle,
            CycleName::DmaIn => Cycle::DmaIn,
            CycleName::DmaOut => Cycle::DmaOut,
            CycleName::Interrupt => Cycle::Interrupt,
        })
    }
}
