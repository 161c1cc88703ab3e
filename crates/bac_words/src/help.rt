//! What `bac help`, `bac version` and `bac completion` print, by the table of commands.
ghost use Rattle.std.specs.Prelude.{◌≡◌, false, IfOk};
ghost use Rattle.std.specs.Io.KnownBytes.{Keeps};

use crate::completion::has_hyphens;
use crate::help_words::{about, command_named, more_example, others};
use crate::manual::write_manual;
use crate::people_words::people;
use crate::shells::{Shell, write_script};
use crate::value_names::list_named;
use crate::words::{Grammar, Need, Word, WordForm};
use crate::wrapping::{Layout, SCREEN, write_lines, write_wrapped};
use std::alloc::Global;
use std::io;
use std::io::Write;

/// The version of the program.
const VERSION: &str = "bac 1.0.0";

/// What is told of the program.
#[derive(Clone, Copy, Debug)]
pub enum Telling<'a> {
    /// The commands on one screen, or what the one of that name does, its words and examples; or the list of names with that name.
    Help(Option<&'a str>),
    /// All commands, and what each does.
    All,
    /// The page of the manual, in roff.
    Manual,
    /// The name of the program and its version, on one line.
    Version,
    /// The script that completes words in a shell.
    Completion(Shell),
}

/// Writes how a word is written, in that layout: `--port P`, `--text`, `FILE`.
pub(crate) fn write_form<O: Write>(out: &mut O, layout: Layout, word: &Word) -> io::Result<()> {
    if has_hyphens(word) {
        layout.write_text(out, "--")?;
    }
    layout.write_text(out, word.name)?;
    match word.form {
        WordForm::Bare | WordForm::OneOf(_) | WordForm::Flag => Ok(()),
        WordForm::Several => out.write_all(b".."),
        WordForm::Text(value)
        | WordForm::Number(value, _)
        | WordForm::Index(value, _)
        | WordForm::Choice(value, _) => write!(out, " {value}"),
    }
}

/// When a word is required, in words; nothing where it never is.
fn need_words(need: Need) -> &'static str {
    match need {
        Need::Always => " (required)",
        Need::One(_) => " (or another way to name the node)",
        Need::Unless(_) | Need::Never | Need::Beside(_) => "",
    }
}

/// Writes a word, and below it what it means.
fn write_word<O: Write>(out: &mut O, word: &Word) -> io::Result<()> {
    out.write_all(b"  ")?;
    write_form(out, SCREEN, word)?;
    out.writeln(need_words(word.need))?;
    write_wrapped(out, SCREEN, 6, word.help)
}

/// Writes what a command does, its words, and examples.
fn write_command<O: Write>(out: &mut O, grammar: &Grammar) -> io::Result<()> {
    let name = grammar.name;
    writeln!(out, "bac {name}")?;
    write_wrapped(out, SCREEN, 2, grammar.about)?;
    out.write_all(b"\n")?;
    for line in grammar.words.lines() {
        write_word(out, &Word::of(line))?;
    }
    if !grammar.words.is_empty() {
        out.write_all(b"\n")?;
    }
    write_lines(out, SCREEN, grammar.after)?;
    match more_example(name) {
        Some(example) => write_lines(out, SCREEN, example),
        None => Ok(()),
    }
}

/// Writes the names of some commands, and what each does.
fn write_names<O: Write>(out: &mut O, grammars: &[Grammar]) -> io::Result<()> {
    for grammar in grammars {
        let name = grammar.name;
        writeln!(out, "  {name}")?;
        write_wrapped(out, SCREEN, 6, grammar.about)?;
    }
    Ok(())
}

/// The commands by whom they are for, on one screen of 24 lines.
const SHORT: &str = "\
BACnet confirmed services: bac COMMAND ARGUMENTS..
For people:
  read        prints values of a device's objects
  write       writes a value, and reads it back
  points      lists a device's objects, with their values and units
  get, put    reads a device's file, or writes it
  backup      saves a device's files in a folder
  restore     writes the saved files back
A device:
  serve       serves objects over UDP
  keep        prints what a server keeps in a file
Captures:
  explain     lists the transactions in a pcap or pcapng file
  check       prints the invalid frames of one
  decode      prints the layers of datagrams
For tests:
  simulate    runs a script of events in a simulated network
  pair        runs two nodes that ask each other
  answer      prints what a server sends back for a datagram
More:
  ask         sends a request, or those of a list
  version     prints the version
  completion  prints a script for bash, zsh or fish
`bac help read` explains read, `bac help --all` all, `bac help values` names.
";

/// Writes all commands.
fn write_all_commands<O: Write>(out: &mut O) -> io::Result<()> {
    out.writeln("BACnet confirmed services: bac COMMAND ARGUMENTS..\n\nFor people:")?;
    write_names(out, people())?;
    out.writeln("\nOther commands:")?;
    write_names(out, others())?;
    write_names(out, about())?;
    out.write_all(b"\n")?;
    out.writeln("Example: bac help serve")?;
    out.writeln("Example: bac ask --help")
}

/// Writes the name of the program and its version, and behind it how it was built.
fn write_version<O: Write>(built: Option<&str>, out: &mut O) -> io::Result<()> {
    match built {
        Some(built) => writeln!(out, "{VERSION} ({built})"),
        None => out.writeln(VERSION),
    }
}

/// Writes the list of names with that name. False, with nothing written, where there is none.
fn write_list<O: Write>(alloc: Global, name: &str, out: &mut O) -> io::Result<bool>
    ensures missing { IfOk result (λ told. told ≡ false → Keeps (O.contents out.old) (O.contents out.new)) }
{
    match list_named(alloc, name)? {
        Some(list) => {
            out.write_all(&list)?;
            Ok(true)
        }
        None => Ok(false),
    }
}

impl Telling<'_> {
    /// Writes what is told, without a flush; `built` is what is known of how the program was built. False, with nothing written, where it is help for a command
    /// and there is none of that name, nor a list of names. An Err is the writer's, or out of memory.
    pub fn write<O: Write>(
        self,
        alloc: Global,
        built: Option<&str>,
        out: &mut O,
    ) -> io::Result<bool>
        ensures missing { IfOk result (λ told. told ≡ false → Keeps (O.contents out.old) (O.contents out.new)) }
    {
        match self {
            Telling::Help(None) => out.write_all(SHORT.as_bytes())?,
            Telling::All => write_all_commands(out)?,
            Telling::Help(Some(name)) => {
                let Some(grammar) = command_named(name) else {
                    return write_list(alloc, name, out);
                };
                write_command(out, grammar)?;
            }
            Telling::Manual => write_manual(out)?,
            Telling::Version => write_version(built, out)?,
            Telling::Completion(shell) => write_script(shell, out)?,
        }
        Ok(true)
    }
}
