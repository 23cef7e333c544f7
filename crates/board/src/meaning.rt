// What a board is. Code above is written over this trait, and proved from nothing else.
ghost use Rattle.std.specs.Prelude.{◌≡◌, ℕ, List};
ghost use Rattle.board.specs.declared.signals.Announcement.{Announcement as announcement};
ghost use Rattle.board.specs.declared.signals.Record.{Record as told};
ghost use Rattle.board.specs.declared.signals.Show.{Show as shows};

use crate::signals::{Announcement, Record, Show};

pub trait Board {
    // Where the board stands, as a list of whole numbers.
    ghost position: { Self → List ℕ };

    // What a board at a position shows in a cycle so announced.
    ghost shown: { List ℕ → announcement → shows };

    // Where a board at a position stands after a cycle with this record.
    ghost moved: { List ℕ → told → List ℕ };

    // Showing alters nothing.
    fn show(&self, announcement: Announcement) -> Show
        ensures { result ≡ shown (position self.now) announcement };

    // A board refuses nothing.
    fn tell(&mut self, record: Record)
        ensures moves { position self.new ≡ moved (position self.old) «record» };
}
