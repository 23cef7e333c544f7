// One line into a caller's buffer.
ghost use Rattle.std.specs.Prelude.{◌≡◌, ◌≤◌, length, Some, IfOk};
ghost use Rattle.listing.specs.Lines.{answered, lengths_at, line_answer, line_at, line_buffer, number_of, overwritten, refusal_text};

use crate::code::Code;
use crate::line::Line;
use std::error::Error;
use std::fmt;

// How many bytes the line and the group have, at most 22 and 3; both are 0 where there is no code, as the station's rules
// answer it.
#[derive(Clone, Copy, Debug, PartialEq, Eq)]
pub struct Listed {
    pub line: u8,
    pub group: u8,
}

// Why a line is not written.
#[derive(Clone, Copy, Debug, PartialEq, Eq)]
pub enum Refusal {
    // the buffer has fewer than 24 bytes
    ShortBuffer,
}

impl Refusal {
    // The number that the host is given, by the station's rules.
    pub fn number(self) -> u8
        ensures { result ≡ number_of self }
    {
        match self {
            Refusal::ShortBuffer => 4,
        }
    }
}

impl fmt::Display for Refusal {
    ghost output = { λ refusal. Some (refusal_text refusal) };

    fn fmt<W: fmt::Write>(&self, f: &mut fmt::Formatter<W>) -> fmt::Result {
        match self {
            Refusal::ShortBuffer => write!(f, "the buffer has fewer than 24 bytes"),
        }
    }
}

impl Error for Refusal {}

// Writes the line of the first group into the buffer, whose other bytes stay.
pub fn list_line(code: Code<'_>, buffer: &mut [u8]) -> Result<Listed, Refusal>
    ensures answer { answered result ≡ line_answer code.entry.address code.entry.bytes.now buffer.old }
    ensures bound { IfOk result (λ l. (l.line ≤ 22) × (l.group ≤ 3)) }
    ensures buffer { buffer.new ≡ line_buffer code.entry.address code.entry.bytes.now buffer.old }
{
    if buffer.len() < 24 {
        return Err(Refusal::ShortBuffer);
    }
    Ok(write_first(code, buffer))
}

// Writes the line of the first group, if there is one, into a buffer that is long enough.
fn write_first(mut code: Code<'_>, buffer: &mut [u8]) -> Listed
    requires { 24 ≤ length buffer.old }
    ensures lengths { result ≡ lengths_at code.entry.address code.entry.bytes.now }
    ensures bound { (result.line ≤ 22) × (result.group ≤ 3) }
    ensures buffer { buffer.new ≡ overwritten (line_at code.entry.address code.entry.bytes.now) buffer.old }
{
    let Some(placed) = code.next() else {
        return Listed { line: 0, group: 0 };
    };
    let line = Line::of(placed);
    put_line(buffer, &line);
    // both are proved to be small: `try_from` would bring a refusal that never comes
    Listed {
        line: line.text().len() as u8,
        group: placed.group.bytes().len() as u8,
    }
}

// A line over the first bytes of a buffer that is long enough.
fn put_line(buffer: &mut [u8], line: &Line)
    requires { 24 ≤ length buffer.old }
    ensures { buffer.new ≡ overwritten line.now buffer.old }
{
    let text = line.text();
    buffer[0..text.len()].copy_from_slice(text);
}
