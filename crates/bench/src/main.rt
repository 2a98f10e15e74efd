// Reads a bench script from standard input, and prints one answer for each command (docs/BENCH.md).
#![tactic(auto)]

mod answers;
mod bench;
mod commands;
mod lists;
mod rows;
mod rule;
mod script;
mod stores;

use bench::Bench;
use script::Wrong;
use std::io;
use std::io::{BufRead, BufReader};

// Kept: one buffer for all lines and no iterator of lines, so that only a line longer than all before it wants memory.
fn serve(rt: &HostRuntime, bench: &mut Bench) -> io::Result<()> {
    let mut input = BufReader::new(rt.alloc(), rt.stdin())?;
    let mut line = Vec::new(rt.alloc());
    for _ in 0..u64::MAX {
        line.clear();
        if input.read_until(b'\n', &mut line)? == 0 {
            break;
        }
        match bench.line(line.as_slice()) {
            Ok(None) => {}
            Ok(Some(answer)) => rt.println(answer)?,
            Err(Wrong) => rt.println("error")?,
        }
    }
    Ok(())
}

fn run(rt: &HostRuntime) -> io::Result<()> {
    serve(rt, &mut Bench::new(rt.alloc()))
}

fn main(rt: HostRuntime) -> io::Result<()> {
    run(&rt)
}
