//! Plays rows of text from standard input and prints what comes of them.
//!
//! The file stdin beside src/ holds the rows, and stdout what the program has to print. A line of `@`, a blank and a name begins a section, which the crate of rows
//! of that name plays: `codecs` (bac_codec_rows), `captures` (bac_capture_rows) and `nodes` (bac_node_rows); the first lines of each crate say how its rows are
//! written. Rows of command lines are in bac_program_rows. The program prints `?` below a name that has no meaning.
#![tactic(auto)]

use std::io;
use std::io::{Read, Write};

/// Plays the rows of a section.
fn play(rt: &HostRuntime, name: &str, rows: &str, out: &mut Vec<u8>) -> io::Result<()> {
    match name.as_bytes() {
        b"codecs" => bac_codec_rows::play_all(rt.alloc(), rows, out),
        b"captures" => bac_capture_rows::play_all(rt.alloc(), rows, out),
        b"nodes" => bac_node_rows::play_all(rt, rt.alloc(), rows, out),
        _ => out.write_all(b"?\n"),
    }
}

/// Plays each section of a text.
fn play_all(rt: &HostRuntime, text: &str, out: &mut Vec<u8>) -> io::Result<()> {
    for section in text.strip_prefix("@ ").unwrap_or(text).split("\n@ ") {
        let (name, rows) = section.split_once('\n').unwrap_or((section, ""));
        writeln!(out, "@ {name}")?;
        play(rt, name, rows, out)?;
        out.write_all(b"\n")?;
    }
    Ok(())
}

fn main(rt: HostRuntime) -> io::Result<()> {
    let mut text = String::new(rt.alloc());
    rt.stdin().read_to_string(&mut text)?;
    let mut out = Vec::new(rt.alloc());
    play_all(&rt, &text, &mut out)?;
    rt.stdout().write_all(&out)
}
