// The worked examples of RCA's manual, by its pages on each instruction.
use crate::arithmetic::{add, subtract};
use crate::shifts::{shift_left, shift_right};

#[test]
fn sums_of_the_manual(rt: HostRuntime) {
    assert_eq!(&rt; add(0x3a, 0x4b, false), (0x85, false));
    assert_eq!(&rt; add(0x3a, 0xf0, false), (0x2a, true));
    assert_eq!(&rt; add(0x3a, 0x2d, true), (0x68, false));
    assert_eq!(&rt; add(0xc2, 0x3d, true), (0x00, true));
    assert_eq!(&rt; add(0x3a, 0xe0, false), (0x1a, true));
    assert_eq!(&rt; add(0x91, 0xfb, true), (0x8d, true));
}

#[test]
fn differences_of_the_manual(rt: HostRuntime) {
    assert_eq!(&rt; subtract(0x42, 0x0e, true), (0x34, true));
    assert_eq!(&rt; subtract(0x42, 0x42, true), (0x00, true));
    assert_eq!(&rt; subtract(0x40, 0x40, true), (0x00, true));
    assert_eq!(&rt; subtract(0x42, 0x77, true), (0xcb, false));
    assert_eq!(&rt; subtract(0x40, 0x20, false), (0x1f, true));
    assert_eq!(&rt; subtract(0x4a, 0xc1, false), (0x88, false));
    assert_eq!(&rt; subtract(0x64, 0x32, true), (0x32, true));
    assert_eq!(&rt; subtract(0x71, 0xf2, true), (0x7f, false));
    assert_eq!(&rt; subtract(0x79, 0x92, true), (0xe7, false));
    assert_eq!(&rt; subtract(0x81, 0xfa, false), (0x86, false));
}

#[test]
fn ring_shifts_undo_each_other(rt: HostRuntime) {
    assert_eq!(&rt; shift_left(0x80, true), (0x01, true));
    assert_eq!(&rt; shift_right(0x01, true), (0x80, true));
}
