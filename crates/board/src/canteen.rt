// The canteen board: a keypad, a lamp and a card writer.
ghost use Rattle.std.specs.Prelude.{◌≡◌};
ghost use Rattle.board.specs.Canteen.{at, Accepts, Loses, carded, cycles_of, moved_by, position_of, shown_by};

use crate::meaning::Board;
use crate::signals::{Announcement, Direction, Record, Show};

// How long a card write takes: 5 ms or 40 ms at 6.4 MHz.
#[derive(Clone, Copy, Debug, PartialEq, Eq)]
pub enum Delay {
    Five,
    Forty,
}

impl Delay {
    // The delay in machine cycles.
    pub fn cycles(self) -> u16
        ensures { result ≡ cycles_of self }
    {
        match self {
            Delay::Five => 4000,
            Delay::Forty => 32000,
        }
    }
}

#[derive(Clone, Copy, Debug, PartialEq, Eq)]
pub struct Canteen {
    pub(crate) key: u8,
    pub(crate) delay: Delay,
    pub(crate) lamp: u8,
    pub(crate) card: u8,
    pub(crate) lost: u8,
    pub(crate) left: u16,
}

impl Canteen {
    // A board with this keypad byte and delay; all else is 0.
    pub fn new(key: u8, delay: Delay) -> Canteen
        ensures { position_of result ≡ at key (cycles_of delay) 0 0 0 0 }
    {
        Canteen {
            key,
            delay,
            lamp: 0,
            card: 0,
            lost: 0,
            left: 0,
        }
    }

    // A byte for the card: it begins a write where none is under way, else it is lost.
    fn put_card(&mut self, byte: u8)
        ensures { position_of self.new ≡ carded (position_of self.old) byte }
    {
        if self.left == 0 {
            self.card = byte;
            self.left = self.delay.cycles();
        } else {
            self.lost = self.lost.saturating_add(1);
            self.left -= 1;
        }
    }
}

impl Board for Canteen {
    ghost position = { λ b. position_of b };

    ghost shown = { shown_by };

    ghost moved = { moved_by };

    fn show(&self, announcement: Announcement) -> Show {
        Show {
            ef1: self.left > 0,
            bus: if announcement.lines == 1 {
                self.key
            } else {
                0xff
            },
            ..Show::silent()
        }
    }

    // OUT 2 is for the card, OUT 1 for the lamp, and INP for neither.
    #[tactic(auto, using(crate::proofs::Writes::waits))]
    fn tell(&mut self, record: Record)
        ensures moves { position_of self.new ≡ moved_by (position_of self.old) «record» }
        ensures accepts { Accepts (cycles_of self.old.delay) (position_of self.old) «record» (position_of self.new) }
        ensures loses { Loses (position_of self.old) «record» (position_of self.new) }
    {
        match (record.direction, record.announcement.lines) {
            (Direction::Read, 2) => self.put_card(record.byte),
            (Direction::Read, 1) => {
                self.lamp = record.byte;
                self.left = self.left.saturating_sub(1);
            }
            _ => self.left = self.left.saturating_sub(1),
        }
    }
}
