// How the comparisons came out.
ghost use Rattle.std.specs.Prelude.{◌≡◌};
ghost use Rattle.witness.specs.Tally.{none, counted};

// How one opcode came out.
#[derive(Clone, Copy, Debug, PartialEq, Eq)]
pub enum Verdict {
    Named,
    Illegal,
    Differs,
}

// How many opcodes were tried, and how many came out in each way.
#[derive(Clone, Copy, Debug, PartialEq, Eq)]
pub struct Tally {
    pub tried: u32,
    pub named: u32,
    pub illegal: u32,
    pub differing: u32,
}

impl Tally {
    // Before the first opcode.
    pub fn none() -> Tally
        ensures { result ≡ none }
    {
        Tally {
            tried: 0,
            named: 0,
            illegal: 0,
            differing: 0,
        }
    }

    // One opcode more; a count that is full stays.
    pub fn count(&mut self, verdict: Verdict)
        ensures { self.new ≡ counted self.old verdict }
    {
        self.tried = self.tried.saturating_add(1);
        match verdict {
            Verdict::Named => self.named = self.named.saturating_add(1),
            Verdict::Illegal => self.illegal = self.illegal.saturating_add(1),
            Verdict::Differs => self.differing = self.differing.saturating_add(1),
        }
    }
}
