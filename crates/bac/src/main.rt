//! `bac`: BACnet confirmed services on the command line.
#![tactic(auto)]

use bac_command_line::{Piped, exit_code, run_to_end};
use bac_system::System;
use bac_text::{Status, no_memory};
use std::io;
use std::io::{BufWriter, IsTerminal};
use std::process::ExitCode;

/// Reads the command line and does what it says. Returns how the program ends. An Err is out of memory, or a word that is no UTF-8.
fn start(rt: &HostRuntime) -> io::Result<ExitCode> {
    let words: Vec<String> = std::env::args(rt)?.collect(rt.alloc())?;
    let is_screen = rt.stdout().is_terminal();
    let mut out = Piped::new(BufWriter::new(rt.alloc(), rt.stdout())?);
    let mut err = rt.stderr();
    let system = System::new(rt, err.is_terminal(), is_screen);
    Ok(run_to_end(rt.alloc(), &words, &system, &system, &mut out, &mut err))
}

fn main(rt: HostRuntime) -> ExitCode {
    let status = match start(&rt) {
        Ok(code) => return code,
        Err(error) if error.kind() == io::ErrorKind::OutOfMemory => no_memory(&mut rt.stderr()),
        Err(error) => {
            let _ = eprintln!(rt; "{error}");
            Status::CommandLine
        }
    };
    exit_code(status, false)
}
