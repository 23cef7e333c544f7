// Holds the core to what another emulator does. Today: the names of the listing, against those of an outside disassembler.
#![tactic(auto)]

use crate::names::Outside;
use crate::tally::{Tally, Verdict};
use anyhow::{bail, ensure};
use std::process::ExitCode;

mod names;
mod tally;

// The error is told here, under the program's name, and not by the runtime once more. `list` ends alike; a crate for these
// lines would be longer than both.
fn main(rt: HostRuntime) -> ExitCode {
    let Err(error) = run(&rt) else {
        return ExitCode::SUCCESS;
    };
    let _told = eprintln!(rt; "witness: {error}");
    ExitCode::FAILURE
}

// One line of input for each opcode, from 00 on: two digits, a space, and the outside name.
fn run(rt: &HostRuntime) -> anyhow::Result<()> {
    let mut tally = Tally::none();
    for line in rt.lines(rt.alloc()) {
        let line = line?;
        let Some(outside) = Outside::of(line.as_str()) else {
            println!(rt; "no opcode and name: {line}")?;
            bail!("a line is not two digits, a space and a name");
        };
        if u32::from(outside.opcode) != tally.tried {
            println!(rt; "out of order: {line}")?;
            bail!("the opcodes do not come in order, one to a line");
        }
        let verdict = outside.verdict(rt.alloc())?;
        if verdict == Verdict::Differs {
            println!(rt; "differs: {line}")?;
        }
        tally.count(verdict);
    }
    print(rt, &tally)
}

fn print(rt: &HostRuntime, tally: &Tally) -> anyhow::Result<()> {
    println!(rt; "opcodes tried: {}", tally.tried)?;
    println!(rt; "listed under the outside name: {}", tally.named)?;
    println!(rt; "listed as BYTE, and illegal outside: {}", tally.illegal)?;
    println!(rt; "listed under another name: {}", tally.differing)?;
    ensure!(
        tally.differing == 0 && tally.tried == 256,
        "the listing and the outside names differ, or an opcode is missing"
    );
    Ok(())
}

#[cfg(test)]
mod tests;
