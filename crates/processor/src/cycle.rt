// One machine cycle.
ghost use Rattle.std.specs.Prelude.{◌≡◌};
ghost use Rattle.processor.specs.Laws.{InterruptsIn, KeepsDf, KeepsOpcode, LoadsBus, Paced, StepsOldX};
ghost use Rattle.processor.specs.Machine.{machine, stepped, told_in};

use crate::state::{Mode, Processor};
use crate::transfer::touch;
use board::meaning::Board;
use board::signals::Record;
use memory::meaning::Memory;

impl Processor {
    // Runs the cycle that is due, and answers its record; where none is due, as the processor is stopped, nothing changes and
    // there is none. In order: announce and show, see what is taken, choose the access, make it, apply the effect, see what
    // comes next, tell the record. Mode, memory and board are lent to each call, so no struct holds them.
    #[tactic(auto, using(crate::proofs::Laws::laws))]
    pub fn cycle<M: Memory, B: Board>(
        &mut self,
        mode: Mode,
        memory: &mut M,
        board: &mut B,
    ) -> Option<Record>
        ensures after { machine self.new (M.store memory.new) (B.position board.new) ≡ stepped B.shown B.moved mode (machine self.old (M.store memory.old) (B.position board.old)) }
        ensures told { result ≡ told_in B.shown (machine self.old (M.store memory.old) (B.position board.old)) }
        ensures built { M.form memory.new ≡ M.form memory.old }
        ensures paced { Paced self.old self.new }
        ensures opcode { KeepsOpcode self.old self.new }
        ensures carry { KeepsDf self.old self.new }
        ensures returning { StepsOldX self.old self.new }
        ensures input { LoadsBus B.shown (B.position board.old) self.old self.new }
        ensures interrupts { InterruptsIn mode self.old self.new }
    {
        let cycle = self.due()?;
        let announcement = cycle.announce(&self.registers);
        let show = board.show(announcement);
        let taken = cycle.takes(&self.registers, show);
        let access = cycle.access(&self.registers, show.bus, taken);
        let transfer = touch(memory, access);
        cycle.affect(&mut self.registers, taken, transfer.byte);
        self.coming = cycle.next(mode, &self.registers, show);
        let record = Record {
            announcement,
            direction: transfer.direction,
            address: transfer.address,
            byte: transfer.byte,
            q: self.registers.q,
        };
        board.tell(record);
        Some(record)
    }
}
