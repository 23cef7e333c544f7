// Memories as a caller meets them.
use crate::bytes::{Fixed, Ram};
use crate::joined::Joined;
use crate::meaning::Memory;
use std::test::Fail;

#[test]
fn ram_keeps_its_bytes_and_nothing_past_them(rt: HostRuntime) -> Result<(), Fail> {
    let mut ram = Ram::new(vec![in rt.alloc(); 0x12, 0x34]?);
    ram.write(1, 0x56);
    ram.write(2, 0x78);
    assert_eq!(rt; ram.read(0), 0x12);
    assert_eq!(rt; ram.read(1), 0x56);
    assert_eq!(rt; ram.read(2), 0xff);
    assert_eq!(rt; ram.read(0xffff), 0xff);
    Ok(())
}

#[test]
fn the_upper_of_two_is_again_two(rt: HostRuntime) -> Result<(), Fail> {
    let fixed = Fixed::new(vec![in rt.alloc(); 0xf8, 0x80]?);
    let low = Ram::new(vec![in rt.alloc(); 0; 1]?);
    let high = Ram::new(vec![in rt.alloc(); 0; 1]?);
    let mut memory = Joined::new(fixed, Joined::new(low, high, 0x1000), 0x8000);
    memory.write(0, 1);
    memory.write(0x8000, 2);
    memory.write(0x9000, 3);
    assert_eq!(rt; memory.read(0), 0xf8);
    assert_eq!(rt; memory.read(2), 0xff);
    assert_eq!(rt; memory.read(0x8000), 2);
    assert_eq!(rt; memory.read(0x8001), 0xff);
    assert_eq!(rt; memory.read(0x9000), 3);
    Ok(())
}
