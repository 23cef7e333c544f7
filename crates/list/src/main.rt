// Lists the program on standard input.
#![tactic(auto)]

use crate::input::program_of;
use listing::code::Code;
use listing::program::{Listing, list_program};
use std::io::{Read, Write};
use std::process::ExitCode;

mod input;

// The error is told here, under the program's name, and not by the runtime once more. `witness` ends alike; a crate for these
// lines would be longer than both.
fn main(rt: HostRuntime) -> ExitCode {
    let Err(error) = run(&rt) else {
        return ExitCode::SUCCESS;
    };
    let _told = eprintln!(rt; "list: {error}");
    ExitCode::FAILURE
}

// Reads one byte more than a program may have, so that one too many is seen.
fn run(rt: &HostRuntime) -> anyhow::Result<()> {
    let mut bytes = Vec::new(rt.alloc());
    rt.stdin().take(65537).read_to_end(&mut bytes)?;
    let program = program_of(bytes.as_slice())?;
    let listing = list_program(Vec::new(rt.alloc()), Code::at(0, program))?;
    print(rt, program.len(), &listing)
}

fn print(rt: &HostRuntime, bytes: usize, listing: &Listing) -> anyhow::Result<()> {
    println!(rt; "taken: {bytes} bytes from standard input, listed from address 0000")?;
    rt.stdout().write_all(listing.text.as_slice())?;
    let groups = listing.instructions.saturating_add(listing.byte_groups);
    println!(rt;
        "listed: {groups} groups: {} instructions and {} BYTE",
        listing.instructions, listing.byte_groups
    )?;
    println!(rt; "joined: the groups, in order, are the {bytes} bytes taken")?;
    Ok(())
}
