// How the line of a group is written: its address, its bytes, its name and its operand.
ghost use Rattle.std.specs.Prelude.{◌≡◌, ◌<◌, [], ◌∷◌, take, codes, slice_index};
ghost use Rattle.listing.specs.Groups.{said};
ghost use Rattle.listing.specs.Text.{Grew, hex_digit, hex2, hex4, hexes, operand_text, named_text, line_text, short_target};

use crate::code::Placed;
use crate::line::Line;
use isa::digit::Digit;
use isa::operands::Operand;

// How a digit is written, in capitals. By hand: `write!` states what it wrote only where it answers Ok, and no clause says
// that it does.
fn hex_digit(digit: Digit) -> u8
    ensures { result ≡ hex_digit digit }
{
    let n = u8::from(digit);
    if n < 10 { b'0' + n } else { b'A' + (n - 10) }
}

// A byte as two digits.
fn hex2(byte: u8) -> [u8; 2]
    ensures { result ≡ hex2 byte }
{
    [hex_digit(Digit::high(byte)), hex_digit(Digit::low(byte))]
}

impl Line {
    // Bytes as digits, two for each.
    fn put_hex(&mut self, bytes: &[u8])
        ensures { Grew self.old (hexes bytes.now) self.new }
    {
        // a line has at most 24 bytes: the loop begins with that
        let _written = self.text();
        for byte in bytes {
            self.put(&hex2(*byte));
        }
    }

    // An address as four digits.
    fn put_address(&mut self, address: u16)
        ensures { Grew self.old (hex4 address) self.new }
    {
        self.put_hex(&address.to_be_bytes());
    }

    // The operand of an instruction, behind a space; nothing where there is none. Not by the placed group: `put_name` has its
    // bytes at hand.
    fn put_operand(&mut self, operand: Option<Operand>, address: u16, bytes: &[u8])
        ensures { Grew self.old (operand_text operand address bytes.now) self.new }
    {
        match operand {
            None => self.put(b""),
            Some(Operand::Register(register)) => self.put(&[
                b' ',
                b'R',
                hex_digit(register.digit()),
            ]),
            Some(Operand::Port(port)) => self.put(&[b' ', hex_digit(Digit::low(port.number()))]),
            Some(Operand::Immediate) => {
                self.put(b" ");
                self.put_hex(&[byte_at(bytes, 1)]);
            }
            Some(Operand::ShortTarget) => {
                self.put(b" ");
                self.put_address(short_target(address, byte_at(bytes, 1)));
            }
            Some(Operand::LongTarget) => {
                self.put(b" ");
                self.put_address(u16::from_be_bytes([byte_at(bytes, 1), byte_at(bytes, 2)]));
            }
        }
    }

    // The name of a group and its operand; BYTE's operand is the byte.
    fn put_name(&mut self, placed: Placed<'_>)
        ensures { Grew self.old (named_text placed.entry.address (said placed.entry.group)) self.new }
    {
        let bytes = placed.group.bytes();
        match placed.group.instruction() {
            Some(instruction) => {
                self.put(instruction.name().as_bytes());
                self.put_operand(instruction.operand(), placed.address, bytes);
            }
            None => {
                self.put(b"BYTE ");
                self.put_hex(&[byte_at(bytes, 0)]);
            }
        }
    }

    // The end of a line.
    fn put_end(&mut self)
        ensures { Grew self.old (codes "\n") self.new }
    {
        self.put(b"\n");
    }

    // The line of a group at an address.
    pub fn of(placed: Placed<'_>) -> Line
        ensures { result ≡ take 24 (line_text placed.entry.address (said placed.entry.group)) }
    {
        let mut line = Line::empty();
        line.put_group(placed);
        line
    }

    // Address, bytes, name and operand, parted by single spaces, and the line's end.
    fn put_group(&mut self, placed: Placed<'_>)
        ensures { Grew self.old (line_text placed.entry.address (said placed.entry.group)) self.new }
    {
        self.put_address(placed.address);
        self.put(b" ");
        self.put_hex(placed.group.bytes());
        self.put(b" ");
        self.put_name(placed);
        self.put_end();
    }
}

// The target of a short branch: on the page of the branch's own address.
fn short_target(address: u16, low: u8) -> u16
    ensures { result ≡ short_target address low }
{
    let [page, _] = address.to_be_bytes();
    u16::from_be_bytes([page, low])
}

// The byte at a place, or 0 past the end.
fn byte_at(bytes: &[u8], at: usize) -> u8
    ensures { result ≡ slice_index bytes.now at }
{
    bytes.get(at).copied().unwrap_or(0)
}
