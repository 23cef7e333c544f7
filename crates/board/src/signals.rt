// What passes between station and board in a cycle.
ghost use Rattle.std.specs.Prelude.{◌≡◌};
ghost use Rattle.board.specs.Signals.{state_code, silent};

// The eight kinds of machine cycle.
#[derive(Clone, Copy, Debug, PartialEq, Eq)]
pub enum CycleName {
    Initialise,
    Fetch,
    Execute,
    SecondExecute,
    Idle,
    DmaIn,
    DmaOut,
    Interrupt,
}

impl CycleName {
    // The state code that the processor puts out in such a cycle: a number, as it is one on the wire.
    pub fn state_code(self) -> u8
        ensures { result ≡ state_code self }
    {
        match self {
            CycleName::Fetch => 0,
            CycleName::Initialise
            | CycleName::Execute
            | CycleName::SecondExecute
            | CycleName::Idle => 1,
            CycleName::DmaIn | CycleName::DmaOut => 2,
            CycleName::Interrupt => 3,
        }
    }
}

// What the station announces before a cycle. The N lines are 0 but in the execute of class 6.
#[derive(Clone, Copy, Debug, PartialEq, Eq)]
pub struct Announcement {
    pub name: CycleName,
    // the N lines; with none it is 0, as on the wires
    pub lines: u8,
    // Q before the cycle
    pub q: bool,
}

// What the board shows in a cycle: the flags EF1 to EF4, the three request lines, and a byte on the bus.
#[derive(Clone, Copy, Debug, PartialEq, Eq)]
pub struct Show {
    pub ef1: bool,
    pub ef2: bool,
    pub ef3: bool,
    pub ef4: bool,
    pub dma_in: bool,
    pub dma_out: bool,
    pub interrupt: bool,
    pub bus: u8,
}

impl Show {
    // No line, and FF on the bus.
    pub fn silent() -> Show
        ensures { result ≡ silent }
    {
        Show {
            ef1: false,
            ef2: false,
            ef3: false,
            ef4: false,
            dma_in: false,
            dma_out: false,
            interrupt: false,
            bus: 0xff,
        }
    }
}

// Whether a cycle read a byte of memory, wrote one, or used none. By the station's rules a board is told all three alike, so
// this is no Option.
#[derive(Clone, Copy, Debug, PartialEq, Eq)]
pub enum Direction {
    Read,
    Write,
    Neither,
}

// What the board is told after a cycle. A cycle that uses no byte has the address 0000 and the byte FF.
#[derive(Clone, Copy, Debug, PartialEq, Eq)]
pub struct Record {
    pub announcement: Announcement,
    pub direction: Direction,
    pub address: u16,
    pub byte: u8,
    // Q after the cycle
    pub q: bool,
}
