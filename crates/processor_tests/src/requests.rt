// Request lines, load and idle.
use crate::bench::{Bench, dma_in, dma_out, interrupt, no_byte, read};
use board::script::Script;
use board::signals::{CycleName, Show};
use isa::operands::Register;
use processor::state::{Mode, Processor};
use std::test::Fail;

#[test]
fn load_takes_bytes_by_dma_in(rt: HostRuntime) -> Result<(), Fail> {
    let heap = rt.alloc();
    let mut bench = Bench::new(heap, 0x0000, 2)?;
    bench.cpu = Processor::new();
    bench.mode = Mode::Load;
    bench.board = Script::new(vec![in heap;
        dma_in(0xff),
        dma_in(0x7a),
        dma_in(0x00),
        Show::silent(),
    ]?);
    bench.run(3);
    assert_eq!(rt; bench.m(0x0000), 0x7a);
    assert_eq!(rt; bench.m(0x0001), 0x00);
    assert_eq!(rt; bench.r(Register::R0), 0x0002);
    assert_eq!(rt; bench.cpu.coming, Some(CycleName::DmaIn));
    bench.run(1);
    assert_eq!(rt; bench.cpu.coming, Some(CycleName::Idle));
    // an interrupt line in load leads nowhere
    bench.run(1);
    assert_eq!(rt; bench.cpu.coming, Some(CycleName::Idle));
    Ok(())
}

#[test]
fn a_dma_cycle_waits_for_the_execute(rt: HostRuntime) -> Result<(), Fail> {
    // NOP: the line shows from the fetch on, and is served after the second execute
    let heap = rt.alloc();
    let mut bench = Bench::new(heap, 0x0000, 1)?;
    bench.put(0x0000, &[0xc4]);
    bench.board = Script::new(vec![in heap; dma_out(), dma_out(), dma_out(), Show::silent()]?);
    bench.run(1);
    assert_eq!(rt; bench.cpu.coming, Some(CycleName::Execute));
    bench.run(1);
    assert_eq!(rt; bench.cpu.coming, Some(CycleName::SecondExecute));
    bench.run(1);
    assert_eq!(rt; bench.turn(), Some(read(CycleName::DmaOut, 0x0001, 0xff)));
    assert_eq!(rt; bench.cpu.coming, Some(CycleName::Fetch));
    Ok(())
}

#[test]
fn dma_in_goes_before_dma_out_and_both_before_interrupt(rt: HostRuntime) -> Result<(), Fail> {
    let heap = rt.alloc();
    let mut bench = Bench::new(heap, 0x0000, 0x0010)?;
    let both = Show {
        dma_out: true,
        interrupt: true,
        ..dma_in(0x11)
    };
    let lower = Show {
        interrupt: true,
        ..dma_out()
    };
    bench.put(0x0000, &[0x1f]);
    bench.board = Script::new(vec![in heap; both, both, lower, interrupt(), Show::silent()]?);
    bench.run(2);
    assert_eq!(rt; bench.cpu.coming, Some(CycleName::DmaIn));
    bench.run(1);
    assert_eq!(rt; bench.cpu.coming, Some(CycleName::DmaOut));
    bench.run(1);
    assert_eq!(rt; bench.cpu.coming, Some(CycleName::Interrupt));
    assert_eq!(rt; bench.turn(), Some(no_byte(CycleName::Interrupt)));
    assert_eq!(rt; bench.cpu.registers.t, 0x00);
    assert_eq!(rt; bench.cpu.registers.x, Register::R2);
    assert_eq!(rt; bench.cpu.registers.p, Register::R1);
    assert!(rt; !bench.cpu.registers.ie);
    Ok(())
}

#[test]
fn no_interrupt_after_the_initialising_cycle_nor_with_ie_0(rt: HostRuntime) -> Result<(), Fail> {
    let heap = rt.alloc();
    let mut bench = Bench::new(heap, 0x0000, 1)?;
    bench.cpu = Processor::new();
    bench.put(0x0000, &[0x1f]);
    bench.board = Script::new(vec![in heap; interrupt(), interrupt(), interrupt()]?);
    bench.run(1);
    assert_eq!(rt; bench.cpu.coming, Some(CycleName::Fetch));
    bench.cpu.registers.ie = false;
    bench.run(2);
    assert_eq!(rt; bench.cpu.coming, Some(CycleName::Fetch));
    Ok(())
}

#[test]
fn idle_lasts_until_a_request_and_a_dma_ends_it(rt: HostRuntime) -> Result<(), Fail> {
    let heap = rt.alloc();
    let mut bench = Bench::new(heap, 0x0000, 4)?;
    bench.put(0x0000, &[0x00, 0x7b]);
    bench.board = Script::new(vec![in heap;
        Show::silent(),
        Show::silent(),
        Show::silent(),
        dma_in(0x99),
    ]?);
    bench.run(2);
    assert_eq!(rt; bench.cpu.coming, Some(CycleName::Idle));
    assert_eq!(rt; bench.turn(), Some(read(CycleName::Idle, 0x0001, 0x7b)));
    assert_eq!(rt; bench.cpu.coming, Some(CycleName::Idle));
    bench.run(1);
    assert_eq!(rt; bench.cpu.coming, Some(CycleName::DmaIn));
    bench.run(1);
    assert_eq!(rt; bench.cpu.coming, Some(CycleName::Fetch));
    Ok(())
}

#[test]
fn ret_lets_an_interrupt_in_at_once(rt: HostRuntime) -> Result<(), Fail> {
    // RET, X and P 0: the byte at R(0) is the one after it, which names X 0 and P 3
    let heap = rt.alloc();
    let mut bench = Bench::new(heap, 0x0000, 2)?;
    bench.put(0x0000, &[0x70, 0x03]);
    bench.cpu.registers.ie = false;
    bench.board = Script::new(vec![in heap; interrupt(), interrupt()]?);
    bench.run(2);
    assert_eq!(rt; bench.cpu.coming, Some(CycleName::Interrupt));
    assert_eq!(rt; bench.cpu.registers.p, Register::R3);
    Ok(())
}
