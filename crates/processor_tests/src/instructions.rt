// What instructions do, cycle by cycle.
use crate::bench::{Bench, bus, no_byte, on_lines, read, written};
use board::script::Script;
use board::signals::CycleName;
use isa::operands::Register;
use std::test::Fail;

#[test]
fn ret_steps_the_register_of_the_old_x(rt: HostRuntime) -> Result<(), Fail> {
    let mut bench = Bench::new(rt.alloc(), 0x0000, 0x8001)?;
    bench.put(0x0000, &[0x70]);
    bench.put(0x8000, &[0x53]);
    bench.cpu.registers.x = Register::R2;
    bench.cpu.registers.ie = false;
    bench.cpu.registers.set_reg(Register::R2, 0x8000);
    bench.run(2);
    assert_eq!(rt; bench.cpu.registers.x, Register::R5);
    assert_eq!(rt; bench.cpu.registers.p, Register::R3);
    assert_eq!(rt; bench.r(Register::R2), 0x8001);
    assert_eq!(rt; bench.r(Register::R5), 0x0000);
    assert!(rt; bench.cpu.registers.ie);
    Ok(())
}

#[test]
fn dis_steps_the_old_x_too_and_shuts_interrupts_out(rt: HostRuntime) -> Result<(), Fail> {
    let mut bench = Bench::new(rt.alloc(), 0x0000, 0x0011)?;
    bench.put(0x0000, &[0x71]);
    bench.put(0x0010, &[0x53]);
    bench.cpu.registers.x = Register::R2;
    bench.cpu.registers.set_reg(Register::R2, 0x0010);
    bench.run(2);
    assert_eq!(rt; bench.cpu.registers.x, Register::R5);
    assert_eq!(rt; bench.r(Register::R2), 0x0011);
    assert!(rt; !bench.cpu.registers.ie);
    Ok(())
}

#[test]
fn sd_and_smb_hand_the_borrow_on(rt: HostRuntime) -> Result<(), Fail> {
    // SDI 79 with D 92, then SDBI 81 with D FA, then SMBI 10 with D 20
    let mut bench = Bench::new(rt.alloc(), 0x0000, 6)?;
    bench.put(0x0000, &[0xfd, 0x79, 0x7d, 0x81, 0x7f, 0x10]);
    bench.cpu.registers.d = 0x92;
    bench.run(2);
    assert_eq!(rt; bench.cpu.registers.d, 0xe7);
    assert!(rt; !bench.cpu.registers.df);
    bench.cpu.registers.d = 0xfa;
    bench.run(2);
    assert_eq!(rt; bench.cpu.registers.d, 0x86);
    assert!(rt; !bench.cpu.registers.df);
    bench.cpu.registers.d = 0x20;
    bench.run(2);
    assert_eq!(rt; bench.cpu.registers.d, 0x0f);
    assert!(rt; bench.cpu.registers.df);
    Ok(())
}

#[test]
fn out_reads_with_its_number_on_the_lines(rt: HostRuntime) -> Result<(), Fail> {
    let mut bench = Bench::new(rt.alloc(), 0x0000, 0x0011)?;
    bench.put(0x0000, &[0x62]);
    bench.put(0x0010, &[0x5a]);
    bench.cpu.registers.x = Register::R2;
    bench.cpu.registers.set_reg(Register::R2, 0x0010);
    bench.run(1);
    assert_eq!(rt;
        bench.turn(),
        Some(on_lines(2, read(CycleName::Execute, 0x0010, 0x5a)))
    );
    assert_eq!(rt; bench.r(Register::R2), 0x0011);
    Ok(())
}

#[test]
fn a_branch_at_a_page_end_goes_by_its_operand(rt: HostRuntime) -> Result<(), Fail> {
    let mut bench = Bench::new(rt.alloc(), 0x02ff, 0x0301)?;
    bench.put(0x02ff, &[0x30, 0x45]);
    bench.run(2);
    assert_eq!(rt; bench.r(Register::R0), 0x0345);
    Ok(())
}

#[test]
fn a_branch_that_is_not_taken_reads_nothing(rt: HostRuntime) -> Result<(), Fail> {
    let mut bench = Bench::new(rt.alloc(), 0x0000, 2)?;
    bench.put(0x0000, &[0x33, 0x45]);
    assert_eq!(rt; bench.turn(), Some(read(CycleName::Fetch, 0x0000, 0x33)));
    assert_eq!(rt; bench.turn(), Some(no_byte(CycleName::Execute)));
    assert_eq!(rt; bench.r(Register::R0), 0x0002);
    Ok(())
}

#[test]
fn a_long_branch_loads_both_bytes_in_its_second_execute(rt: HostRuntime) -> Result<(), Fail> {
    let mut bench = Bench::new(rt.alloc(), 0x0100, 0x0103)?;
    bench.put(0x0100, &[0xc3, 0x2f, 0x9a]);
    bench.cpu.registers.df = true;
    bench.run(2);
    assert_eq!(rt; bench.r(Register::R0), 0x0102);
    assert_eq!(rt; bench.cpu.registers.b, 0x2f);
    assert_eq!(rt;
        bench.turn(),
        Some(read(CycleName::SecondExecute, 0x0102, 0x9a))
    );
    assert_eq!(rt; bench.r(Register::R0), 0x2f9a);
    assert_eq!(rt; bench.cpu.coming, Some(CycleName::Fetch));
    Ok(())
}

#[test]
fn class_c_has_three_cycles_taken_or_not(rt: HostRuntime) -> Result<(), Fail> {
    // LBDF not taken, then NOP, then LSDF not taken: no DF
    let mut bench = Bench::new(rt.alloc(), 0x0100, 0x0105)?;
    bench.put(0x0100, &[0xc3, 0x2f, 0x9a, 0xc4, 0xcf]);
    bench.run(3);
    assert_eq!(rt; bench.r(Register::R0), 0x0103);
    assert_eq!(rt; bench.cpu.coming, Some(CycleName::Fetch));
    bench.run(3);
    assert_eq!(rt; bench.r(Register::R0), 0x0104);
    assert_eq!(rt; bench.cpu.coming, Some(CycleName::Fetch));
    bench.run(2);
    assert_eq!(rt; bench.cpu.coming, Some(CycleName::SecondExecute));
    bench.run(1);
    assert_eq!(rt; bench.r(Register::R0), 0x0105);
    assert_eq!(rt; bench.cpu.coming, Some(CycleName::Fetch));
    Ok(())
}

#[test]
fn skips_of_the_manual(rt: HostRuntime) -> Result<(), Fail> {
    // C85A2B23 goes on with 23; CD5525F2 with F2 if Q is 1, else with 55
    let mut bench = Bench::new(rt.alloc(), 0x0000, 8)?;
    bench.put(0x0000, &[0xc8, 0x5a, 0x2b, 0xcd, 0x55, 0x25, 0xf2]);
    bench.run(3);
    assert_eq!(rt; bench.r(Register::R0), 0x0003);
    bench.cpu.registers.q = true;
    bench.run(3);
    assert_eq!(rt; bench.r(Register::R0), 0x0006);
    bench.cpu.registers.set_reg(Register::R0, 0x0003);
    bench.cpu.registers.q = false;
    bench.run(3);
    assert_eq!(rt; bench.r(Register::R0), 0x0004);
    Ok(())
}

#[test]
fn inp_loads_d_though_nothing_is_kept(rt: HostRuntime) -> Result<(), Fail> {
    let heap = rt.alloc();
    let mut bench = Bench::new(heap, 0x0000, 1)?;
    bench.put(0x0000, &[0x6d]);
    bench.board = Script::new(vec![in heap; bus(0xff), bus(0x5a)]?);
    bench.cpu.registers.x = Register::R3;
    bench.cpu.registers.set_reg(Register::R3, 0x9000);
    bench.run(1);
    assert_eq!(rt;
        bench.turn(),
        Some(on_lines(5, written(CycleName::Execute, 0x9000, 0x5a)))
    );
    assert_eq!(rt; bench.cpu.registers.d, 0x5a);
    assert_eq!(rt; bench.m(0x9000), 0xff);
    Ok(())
}

#[test]
fn mark_writes_at_r2_and_not_at_r_x(rt: HostRuntime) -> Result<(), Fail> {
    let mut bench = Bench::new(rt.alloc(), 0x0000, 0x0020)?;
    bench.put(0x0000, &[0x79]);
    bench.cpu.registers.x = Register::RA;
    bench.cpu.registers.set_reg(Register::R2, 0x0010);
    bench.run(1);
    assert_eq!(rt;
        bench.turn(),
        Some(written(CycleName::Execute, 0x0010, 0xa0))
    );
    assert_eq!(rt; bench.cpu.registers.t, 0xa0);
    assert_eq!(rt; bench.cpu.registers.x, Register::R0);
    assert_eq!(rt; bench.r(Register::R2), 0x000f);
    Ok(())
}

#[test]
fn registers_wrap(rt: HostRuntime) -> Result<(), Fail> {
    // INC R5, DEC R5, DEC R5
    let mut bench = Bench::new(rt.alloc(), 0x0000, 3)?;
    bench.put(0x0000, &[0x15, 0x25, 0x25]);
    bench.cpu.registers.set_reg(Register::R5, 0xffff);
    bench.run(2);
    assert_eq!(rt; bench.r(Register::R5), 0x0000);
    bench.run(2);
    assert_eq!(rt; bench.r(Register::R5), 0xffff);
    bench.run(2);
    assert_eq!(rt; bench.r(Register::R5), 0xfffe);
    Ok(())
}

#[test]
fn opcode_68_stops_the_processor(rt: HostRuntime) -> Result<(), Fail> {
    let mut bench = Bench::new(rt.alloc(), 0x0000, 1)?;
    bench.put(0x0000, &[0x68]);
    assert_eq!(rt; bench.turn(), Some(read(CycleName::Fetch, 0x0000, 0x68)));
    assert_eq!(rt; bench.cpu.coming, None);
    assert_eq!(rt; bench.turn(), None);
    assert_eq!(rt; u8::from(bench.cpu.registers.i()), 0x6);
    assert_eq!(rt; u8::from(bench.cpu.registers.n()), 0x8);
    assert_eq!(rt; bench.r(Register::R0), 0x0001);
    Ok(())
}
