// Follows a card write from OUT 2 to the end of the delay, on the 5 ms and on the 40 ms board.
#![tactic(auto)]

use crate::cycles::{idle, inp, out};
use board::canteen::{Canteen, Delay};
use board::meaning::Board;
use std::io;

mod cycles;

fn main(rt: HostRuntime) -> io::Result<()> {
    follow(&rt, Delay::Five)?;
    follow(&rt, Delay::Forty)
}

fn follow(rt: &HostRuntime, delay: Delay) -> io::Result<()> {
    let mut board = Canteen::new(0x31, delay);
    let cycles = delay.cycles();
    println!(rt; "A card write of {cycles} cycles:")?;
    print(rt, "before OUT 2", &board)?;
    board.tell(out(2, 0x5a));
    print(rt, "after OUT 2 with 5A", &board)?;
    let first = run(&mut board, 1000);
    println!(rt; "{first} idle cycles, EF1 shown in each")?;
    board.tell(out(2, 0x33));
    print(rt, "after OUT 2 with 33", &board)?;
    board.tell(inp(2, 0x44));
    board.tell(out(1, 0x01));
    print(rt, "after INP 2 with 44 and OUT 1 with 01", &board)?;
    let rest = run(&mut board, u16::MAX);
    println!(rt; "{rest} idle cycles more, EF1 shown in each")?;
    print(rt, "at the end", &board)
}

// Runs idle cycles while EF1 shows, as many as granted at most, and says how many.
fn run(board: &mut Canteen, most: u16) -> u16 {
    for done in 0..most {
        if !board.show(idle().announcement).ef1 {
            return done;
        }
        board.tell(idle());
    }
    most
}

fn print(rt: &HostRuntime, when: &str, board: &Canteen) -> io::Result<()> {
    let ef1 = if board.show(idle().announcement).ef1 {
        "EF1 shows"
    } else {
        "EF1 is off"
    };
    println!(rt;
        "  {when}: {ef1}, {} write cycles left, lamp {:02X}, card {:02X}, lost {}",
        board.left(),
        board.lamp(),
        board.card(),
        board.lost()
    )
}
