// Lines whose text a site's programmer would write down.
use crate::code::Code;
use crate::line::Line;
use crate::lines::{Refusal, list_line};
use crate::program::list_program;
use std::process::Abort;
use std::test::Fail;

// The line of a code's first group, in a buffer of 24 bytes, and how long the group is.
fn listed(rt: &impl Abort, code: Code<'_>, text: &[u8], group: u8) -> Result<(), Fail> {
    let mut buffer = [b'.'; 24];
    let answer = list_line(code, &mut buffer)?;
    assert_eq!(rt; usize::from(answer.line), text.len());
    assert_eq!(rt; answer.group, group);
    for (i, byte) in buffer.iter().enumerate() {
        assert_eq!(rt; *byte, text.get(i).copied().unwrap_or(b'.'));
    }
    Ok(())
}

#[test]
fn load_immediate(rt: HostRuntime) -> Result<(), Fail> {
    listed(&rt, Code::at(0, &[0xf8, 0x0a]), b"0000 F80A LDI 0A\n", 2)
}

#[test]
fn a_cut_long_branch_is_a_byte(rt: HostRuntime) -> Result<(), Fail> {
    let listing = list_program(Vec::new(rt.alloc()), Code::at(0, &[0xc3, 0x2f]))?;
    assert!(rt; listing.text.as_slice() == b"0000 C3 BYTE C3\n0001 2F DEC RF\n".as_slice());
    assert_eq!(rt; listing.instructions, 1);
    assert_eq!(rt; listing.byte_groups, 1);
    Ok(())
}

#[test]
fn addresses_wrap(rt: HostRuntime) -> Result<(), Fail> {
    let listing = list_program(Vec::new(rt.alloc()), Code::at(0xffff, &[0x30, 0x07, 0xe1]))?;
    assert!(rt; listing.text.as_slice() == b"FFFF 3007 BR FF07\n0001 E1 SEX R1\n".as_slice());
    Ok(())
}

#[test]
fn no_code_gives_no_line(rt: HostRuntime) -> Result<(), Fail> {
    listed(&rt, Code::at(0x1234, &[]), b"", 0)?;
    let listing = list_program(Vec::new(rt.alloc()), Code::at(0, &[]))?;
    assert!(rt; listing.text.is_empty());
    Ok(())
}

#[test]
fn a_buffer_of_23_bytes_is_refused(rt: HostRuntime) -> Result<(), Fail> {
    let mut buffer = [b'.'; 23];
    let refused = list_line(Code::at(0, &[0xf8, 0x0a]), &mut buffer);
    assert_eq!(rt; refused, Err(Refusal::ShortBuffer));
    assert_eq!(rt; Refusal::ShortBuffer.number(), 4);
    assert!(rt; buffer == [b'.'; 23]);
    Ok(())
}

#[test]
fn a_line_can_be_cloned(rt: HostRuntime) -> Result<(), Fail> {
    let mut code = Code::at(0, &[0xf8, 0x0a]);
    let Some(placed) = code.next() else {
        return Err(Fail::new("two bytes have no group"));
    };
    let line = Line::of(placed).clone()?;
    assert!(rt; line.text() == b"0000 F80A LDI 0A\n".as_slice());
    Ok(())
}

#[test]
fn a_line_can_be_copied(rt: HostRuntime) -> Result<(), Fail> {
    let mut code = Code::at(0, &[0xf8, 0x0a]);
    let Some(placed) = code.next() else {
        return Err(Fail::new("two bytes have no group"));
    };
    let line = Line::of(placed);
    let copy = line;
    assert!(rt; line.text() == copy.text());
    assert!(rt; copy.text() == b"0000 F80A LDI 0A\n".as_slice());
    Ok(())
}
