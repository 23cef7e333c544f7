// The names of an outside disassembler, beside those of the listing.
use crate::tally::Verdict;
use listing::code::Code;
use listing::lines::list_line;
use std::alloc::{AllocError, Global};

// What the outside says of an opcode. It calls an opcode that is no instruction 'illegal'.
#[derive(Clone, Copy)]
pub struct Outside<'a> {
    // as they are written, since the line's are compared with them
    digits: &'a str,
    pub opcode: u8,
    name: &'a str,
}

impl<'a> Outside<'a> {
    // A line such as `F8 LDI`.
    pub(crate) fn of(line: &'a str) -> Option<Outside<'a>> {
        let (digits, name) = line.split_once(' ')?;
        let opcode = u8::from_str_radix(digits, 16).ok()?;
        Some(Outside {
            digits,
            opcode,
            name,
        })
    }

    // Whether the line of this opcode, with zeros behind it, has this name, and nothing more than an operand behind it.
    pub(crate) fn verdict(&self, heap: Global) -> Result<Verdict, AllocError> {
        let mut line = [0u8; 24];
        let Ok(answer) = list_line(Code::at(0, &[self.opcode, 0, 0]), &mut line) else {
            return Ok(Verdict::Differs);
        };
        let zeros = match answer.group {
            1 => "",
            2 => "00",
            _ => "0000",
        };
        let illegal = self.name == "illegal";
        let name = if illegal { "BYTE" } else { self.name };
        let digits = self.digits;
        let text = format!(in heap; "0000 {digits}{zeros} {name}")?;
        Ok(match line.strip_prefix(text.as_bytes()) {
            Some([b' ' | b'\n', ..]) if illegal => Verdict::Illegal,
            Some([b' ' | b'\n', ..]) => Verdict::Named,
            _ => Verdict::Differs,
        })
    }
}
