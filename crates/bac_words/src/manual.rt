//! The page of the manual.
use crate::help::write_form;
use crate::help_words::{about, more_example, others};
use crate::people_words::people;
use crate::words::{Grammar, Word};
use crate::wrapping::{FILLED, SHOWN, write_lines, write_wrapped};
use std::io;
use std::io::Write;

/// What the page begins with.
const HEAD: &str = ".\\\" made by `bac help --man`: change the table of commands, and make it again
.TH BAC 1
.SH NAME
bac \\- BACnet confirmed services
.SH SYNOPSIS
.B bac
COMMAND ARGUMENTS..
.SH COMMANDS
";

/// What the page ends with.
const TAIL: &str = ".SH EXIT STATUS
.TP
.B 0
Done.
.TP
.B 1
Done, with a fault: an invalid datagram, a request with no answer, an event that
could not happen.
.TP
.B 2
The arguments are invalid, or a file that they name is invalid or cannot be
read.
.TP
.B 3
A socket, the clock or the output failed.
.TP
.B 4
An allocation failed.
.TP
.B 141
What reads the output has ended.
";

/// Writes a word and what it means.
fn write_word<O: Write>(out: &mut O, word: &Word) -> io::Result<()> {
    out.write_all(b".TP\n.B ")?;
    write_form(out, FILLED, word)?;
    out.write_all(b"\n")?;
    write_wrapped(out, FILLED, 0, word.help)
}

/// Writes what is told of a command.
fn write_command<O: Write>(out: &mut O, grammar: &Grammar) -> io::Result<()> {
    let name = grammar.name;
    writeln!(out, ".SS bac {name}")?;
    write_wrapped(out, FILLED, 0, grammar.about)?;
    for line in grammar.words.lines() {
        write_word(out, &Word::of(line))?;
    }
    out.write_all(b".PP\n.nf\n")?;
    write_lines(out, SHOWN, grammar.after)?;
    if let Some(example) = more_example(name) {
        write_lines(out, SHOWN, example)?;
    }
    out.write_all(b".fi\n")
}

/// Writes what is told of some commands.
fn write_commands<O: Write>(out: &mut O, grammars: &[Grammar]) -> io::Result<()> {
    for grammar in grammars {
        write_command(out, grammar)?;
    }
    Ok(())
}

/// Writes the page of the manual: all commands, their words and examples, in roff.
pub(crate) fn write_manual<O: Write>(out: &mut O) -> io::Result<()> {
    out.write_all(HEAD.as_bytes())?;
    write_commands(out, people())?;
    write_commands(out, others())?;
    write_commands(out, about())?;
    out.write_all(TAIL.as_bytes())
}
