// The text of one line.
use std::marker::Model;

// A line's bytes, of which there is room for 24; no line of a listing has more than 22. A contract sees what is written. An
// array, and no `ArrayVec`, so that a line is `Copy`: behind what is written it is 0, so that the text says all that it holds.
#[derive(Clone, Copy, Debug)]
pub struct Line {
    bytes: [u8; 24],
    written: usize,
}

impl Model for Line {
    ghost use Rattle.std.specs.Prelude.{◌≡◌, ℕ, ◌-◌, ◌≤◌, List, length, take, drop, ◌++◌, replicate};
    ghost use Rattle.std.proofs.Common.{ap, ◌∙◌, arith};
    ghost use Rattle.std.proofs.lemmas.List.{length-take-le, take-append-drop};

    ghost Value = { List ℕ };

    ghost view = { λ line. take line.written line.bytes };

    ghost invariant = { λ line. (line.written ≤ 24) × (length line.bytes ≡ 24) × (replicate (24 - line.written) 0 ≡ drop line.written line.bytes) };

    ghost inverse = { λ text. record { bytes = text ++ replicate (24 - length text) 0; written = length text } };

    ghost inverse_ok = { λ line fits i. record {
      bytes = (ap (λ n. take line.written line.bytes ++ replicate (24 - n) 0) (length-take-le line.written line.bytes (omega (arith, fits.0, fits.1)))
          ∙ ap (λ rest. take line.written line.bytes ++ rest) fits.2 ∙ take-append-drop line.written line.bytes) i;
      written = length-take-le line.written line.bytes (omega (arith, fits.0, fits.1)) i;
    } };
}

impl Line {
    ghost use Rattle.std.specs.Prelude.{◌≡◌, ◌≤◌, [], ◌∷◌, length};
    ghost use Rattle.listing.specs.Text.{Grew};

    // A line with no text.
    pub(crate) fn empty() -> Line
        ensures { result ≡ [] }
    {
        Line {
            bytes: [0; 24],
            written: 0,
        }
    }

    // What is written so far.
    pub fn text(&self) -> &[u8]
        ensures value { result.now ≡ self.now }
        ensures length { length result.now ≤ 24 }
    {
        &self.bytes[0..self.written]
    }

    // One byte more; a full line stays as it is.
    fn put_byte(&mut self, byte: u8)
        ensures { Grew self.old (byte ∷ []) self.new }
    {
        if self.written < 24 {
            self.bytes[self.written] = byte;
            self.written += 1;
        }
    }

    // Some bytes more, as many as there is room for. One at a time: a copy of some bytes would call C's `memcpy` and `memset`.
    pub(crate) fn put(&mut self, text: &[u8])
        ensures { Grew self.old text.now self.new }
    {
        // a line has at most 24 bytes: the loop begins with that
        let _written = self.text();
        for byte in text {
            self.put_byte(*byte);
        }
    }
}
