// What the canteen board answers.
ghost use Rattle.std.specs.Prelude.{◌≡◌};
ghost use Rattle.board.specs.Canteen.{Waits, position_of};

use crate::canteen::Canteen;

impl Canteen {
    // The keypad byte.
    pub fn key(&self) -> u8
        ensures { result ≡ self.now.key }
    {
        self.key
    }

    // The byte that OUT 1 put out last.
    pub fn lamp(&self) -> u8
        ensures { result ≡ self.now.lamp }
    {
        self.lamp
    }

    // The byte of the card write that began last.
    pub fn card(&self) -> u8
        ensures { result ≡ self.now.card }
    {
        self.card
    }

    // How many bytes were lost, up to 255.
    pub fn lost(&self) -> u8
        ensures { result ≡ self.now.lost }
    {
        self.lost
    }

    // How many write cycles are left: EF1 shows in just as many to come, whatever is told in them, and the card byte stays.
    #[tactic(auto, using(crate::proofs::Writes::waits))]
    pub fn left(&self) -> u16
        ensures value { result ≡ self.now.left }
        ensures waits { Waits result (position_of self.now) }
    {
        self.left
    }
}
