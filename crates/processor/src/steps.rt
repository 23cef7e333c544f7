// The steps of a cycle: what is announced, whether a branch is taken, which byte it uses, what it does to the registers, and
// what comes next.
ghost use Rattle.std.specs.Prelude.{◌≡◌};
ghost use Rattle.processor.specs.Cycles.{accessed, affected, announced, comes_next, lines_of, name_of, served, takes};

use crate::state::{Cycle, Mode};
use board::signals::{Announcement, CycleName, Show};
use execution::access::{Access, execute_access, second_access};
use execution::conditions::taken;
use execution::effects::{execute, second_execute};
use isa::operands::Register;
use registers::registers::Registers;

// Each step is a match over the kinds of cycle: they are eight for good, and closures for them would be the same lines with a
// call more.
impl Cycle {
    // The cycle's name, as the board is told it.
    pub fn name(self) -> CycleName
        ensures { result ≡ name_of self }
    {
        match self {
            Cycle::Initialise => CycleName::Initialise,
            Cycle::Fetch => CycleName::Fetch,
            Cycle::Execute(_) => CycleName::Execute,
            Cycle::SecondExecute(_) => CycleName::SecondExecute,
            Cycle::Idle => CycleName::Idle,
            Cycle::DmaIn => CycleName::DmaIn,
            Cycle::DmaOut => CycleName::DmaOut,
            Cycle::Interrupt => CycleName::Interrupt,
        }
    }

    // The N lines: N's low three bits in the execute of class 6, else 0. By I and N, and not by the instruction, as the station's
    // rules say it; so too in `next`.
    fn lines(self, registers: &Registers) -> u8
        ensures { result ≡ lines_of self registers.now }
    {
        match self {
            Cycle::Execute(_) if u8::from(registers.i()) == 0x6 => u8::from(registers.n()) % 8,
            _ => 0,
        }
    }

    // What the board is told before the cycle.
    pub fn announce(self, registers: &Registers) -> Announcement
        ensures { result ≡ announced self registers.now }
    {
        Announcement {
            name: self.name(),
            lines: self.lines(registers),
            q: registers.q,
        }
    }

    // Whether the branch or skip of an execute is taken.
    pub fn takes(self, registers: &Registers, show: Show) -> bool
        ensures { result ≡ takes self registers.now show }
    {
        match self {
            Cycle::Execute(i) | Cycle::SecondExecute(i) => taken(i, registers, show),
            _ => false,
        }
    }

    // The byte that the cycle uses, if any, by the registers before it, the bus byte, and whether its instruction is taken.
    pub fn access(self, registers: &Registers, bus: u8, taken: bool) -> Option<Access>
        ensures { result ≡ accessed self registers.now bus taken }
    {
        match self {
            Cycle::Initialise | Cycle::Interrupt => None,
            Cycle::Fetch => Some(Access::Reads(registers.r_p())),
            Cycle::Execute(instruction) => execute_access(instruction, registers, bus, taken),
            Cycle::SecondExecute(instruction) => second_access(instruction, registers, taken),
            Cycle::Idle | Cycle::DmaOut => Some(Access::Reads(registers.reg(Register::R0))),
            Cycle::DmaIn => Some(Access::Writes(registers.reg(Register::R0), bus)),
        }
    }

    // What the cycle does to the registers. The byte is the one that it read or wrote.
    pub fn affect(self, registers: &mut Registers, taken: bool, byte: u8)
        ensures { registers.new ≡ affected self taken byte registers.old }
    {
        match self {
            Cycle::Initialise => {
                registers.x = Register::R0;
                registers.p = Register::R0;
                registers.set_reg(Register::R0, 0x0000);
            }
            Cycle::Fetch => {
                registers.opcode = byte;
                registers.up(registers.p);
            }
            Cycle::Execute(instruction) => execute(instruction, registers, taken, byte),
            Cycle::SecondExecute(instruction) => second_execute(
                instruction,
                registers,
                taken,
                byte,
            ),
            Cycle::Idle => {}
            Cycle::DmaIn | Cycle::DmaOut => registers.up(Register::R0),
            Cycle::Interrupt => {
                registers.t = registers.xp();
                registers.x = Register::R2;
                registers.p = Register::R1;
                registers.ie = false;
            }
        }
    }

    // What comes after the cycle, by the registers as it left them and by the lines shown in it.
    pub fn next(self, mode: Mode, registers: &Registers, show: Show) -> Option<CycleName>
        ensures { result ≡ comes_next self mode registers.now show }
    {
        Some(match self {
            Cycle::Fetch if registers.opcode == 0x68 => return None,
            Cycle::Fetch => CycleName::Execute,
            Cycle::Execute(_) if u8::from(registers.i()) == 0xc => CycleName::SecondExecute,
            Cycle::Execute(_) if registers.opcode == 0x00 => serve(
                mode,
                show,
                registers.ie,
                CycleName::Idle,
            ),
            Cycle::Idle => serve(mode, show, registers.ie, CycleName::Idle),
            Cycle::Initialise => serve(mode, show, false, CycleName::Fetch),
            _ => serve(mode, show, registers.ie, CycleName::Fetch),
        })
    }
}

// The order of the request lines: DMA-in, DMA-out, and in run interrupt, where it may come. With none, load idles.
fn serve(mode: Mode, show: Show, interruptible: bool, rest: CycleName) -> CycleName
    ensures { result ≡ served mode show interruptible rest }
{
    if show.dma_in {
        return CycleName::DmaIn;
    }
    if show.dma_out {
        return CycleName::DmaOut;
    }
    match mode {
        Mode::Load => CycleName::Idle,
        Mode::Run if show.interrupt && interruptible => CycleName::Interrupt,
        Mode::Run => rest,
    }
}
