//! Plays rows of text from standard input, and prints which of them hold. A row has files, what is behind the links of a machine, a command line of
//! `bac`, and what that has to print.
//!
//! The file stdin beside src/ holds the rows, and stdout what the program has to print. A line that begins with `=` begins a group, and is its title. Blank
//! lines part its paragraphs. A paragraph with a line `$ WORDS` is a row: above that line stand the lines that set its scene, below it what the command line
//! prints. Several `$` lines of a paragraph have one folder, one after the other. A paragraph without `$` sets the scene of all rows that follow in its group.
//! For each group the program prints how many rows hold, of how many, and for each row that does not hold its command line after `! `, what that printed, and
//! each other line of the row that does not hold after `! `. Only rows that are wrong on purpose do so. It prints `? ` and the command line where a row has
//! no meaning.
//!
//! Lines that set a scene:
//! - `links WORDS` is what is behind the links (`behind`); without it the system refuses each link.
//! - `clock MOMENT +STEP`, or `-STEP`: the clock begins at that moment and goes on, or back, by so many milliseconds each time that it is looked at;
//!   `clock none` can't be read. Without it the clock stands at 0.
//! - `day +STEP`: the time of day goes on by so many milliseconds each time that it is looked at; it is 2026-11-27, 7:10 in UTC, at first.
//! - `file NAME` is a file of the lines below it, each after `| `; `file NAME denied` and `file NAME memory` fail behind them, with permission denied
//!   or want of memory. `file NAME unopened` can't be opened for want of memory, and `file NAME pipe` is none that can be followed. A file that is
//!   there twice has the second text where it is opened again, and so on.
//! - `hex NAME` is a file of octets, in hexadecimal, with blanks between them.
//! - `disk`: files can be written. `disk NAME`: those whose names begin so get half of the octets, and then the disk is full.
//!   `disk silent NAME`: they get half of the octets, and nothing is said.
//! - `database NAME` keeps cells, each `PLACE HEX` after `| `; `database NAME new` is made when it is opened; `locked` and `damaged` can't be opened.
//! - `screen`: standard output is a terminal. `terminal`: standard error is one. `errors fail`: nothing can be written to it; `errors fail once`: the first write fails. `output fails`: nothing
//!   can be written to standard output.
//! - `full FROM TO`: where a server asks whether standard error has room, it has none from the FROM-th time on, counted from 0, and again from the TO-th on.
//! - `taken N`: clients try the ports from 40,000 on, and so many of them are taken. `source A.B.C.D`: the address that the machine sends from.
//!   `way HOST A.B.C.D`: it sends to that host from this address; `way HOST none`: it tells none from which it sends there.
//! - `machine`: the command line runs on the files, sockets and clock of the machine that plays the rows; of the other lines only `errors` means something then.
//!   `machine taken PORT`: that port of 127.0.0.1 is taken meanwhile.
//! - `built TEXT`: that is known of how the program was built.
//! - `pairs`: a moment in microseconds stands for the command line, and the port and the first invoke ID of a client that begins then are printed.
//! - `# ..` is a note, also below a command line.
//!
//! Lines of what a command line prints:
//! - a line is a line of standard output, as is `1> LINE`, which may be empty or look like one of those that follow;
//! - `2> LINE` is a line of standard error;
//! - `~ TEXT`: standard output has that text somewhere, and is not compared otherwise; `2~ TEXT`: so has standard error; `2^ TEXT`: it begins so;
//! - `status N` is the exit status, 0 without it;
//! - `wrote NAME` with lines after `| `: that file has them now;
//! - `bound A.B.C.D:P`, or `bound nowhere`: where the last link is bound; it has no meaning beside `machine` and `pairs`;
//! - `moment LEAST MORE TEXT`: standard error is that text, a number and the end of a line. The number is LEAST at least, and at most MORE greater
//!   than the milliseconds that the command line took. Beside `machine` these are by a clock that was made before, otherwise 0;
//! - `wrapped`: no line is longer than 80 octets, and two at least begin with `Example: `;
//! - `writes N`: where standard output takes fewer writes than all, which are N at least, or can't be flushed, that is told. Nothing else is compared
//!   but the status. `writes endless`: the command line ends only where a write fails.
//!
//! In lines, words and texts `\n`, `\r`, `\t` and `\s` stand for the end of a line, a carriage return, a tab and a blank, and `\xAB` for that octet.
//! A `\` at the end says that no end of a line follows. `\{3*AB}` stands for ABABAB, and `\{2..4*\#: AB\n}` for three lines, where `\#` is the
//! number. A word of a command line with blanks stands in quotes.
#![tactic(auto)]

mod behind;
mod bench;
mod command;
mod databases;
mod failing;
mod files;
mod lines;
mod rows;
mod scene;
mod sink;
mod spelling;
mod wanted;

use crate::rows::play_all;
use std::io;
use std::io::{Read, Write};

fn main(rt: HostRuntime) -> io::Result<()> {
    let mut text = String::new(rt.alloc());
    rt.stdin().read_to_string(&mut text)?;
    let mut out = Vec::new(rt.alloc());
    play_all(&rt, &text, &mut out)?;
    rt.stdout().write_all(&out)
}
