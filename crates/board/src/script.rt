// The script board: a list of shows, one for each cycle, and then silence.
ghost use Rattle.std.specs.Prelude.{◌≡◌};
ghost use Rattle.board.specs.Script.{Advanced, codes_of, moved_in, position_of, shown_in};

use crate::meaning::Board;
use crate::signals::{Announcement, Record, Show};

// The place in the list is kept beside it, since the whole list is handed back.
#[derive(Drop)]
pub struct Script {
    shows: Vec<Show>,
    next: usize,
}

impl Script {
    // A board that has yet to give its first show.
    pub fn new(shows: Vec<Show>) -> Script
        ensures { position_of result ≡ codes_of shows.items }
    {
        Script { shows, next: 0 }
    }

    // The whole list of shows, handed back.
    pub fn into_shows(self) -> Vec<Show>
        ensures { result.items ≡ self.shows.items }
    {
        let Script { shows, next: _ } = self;
        shows
    }
}

impl Board for Script {
    ghost position = { λ b. position_of b };

    ghost shown = { shown_in };

    ghost moved = { moved_in };

    // The show at the board's place, or silence past the end.
    #[tactic(auto, using(crate::proofs::Scripts::shown_left))]
    fn show(&self, _announcement: Announcement) -> Show {
        self.shows.get(self.next).copied().unwrap_or(Show::silent())
    }

    // One cycle on; at the end the board stays there. The list stays as it is.
    #[tactic(auto, using(crate::proofs::Scripts::moved_on))]
    fn tell(&mut self, _record: Record)
        ensures moves { position_of self.new ≡ moved_in (position_of self.old) «_record» }
        ensures keeps { self.new.shows.items ≡ self.old.shows.items }
        ensures advances { Advanced self.old self.new }
    {
        if self.next < self.shows.len() {
            self.next += 1;
        }
    }
}
