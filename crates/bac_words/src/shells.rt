//! The scripts that complete words, by shell.
use crate::completion::{
    has_hyphens, write_all_names, write_choices, write_completion, write_options,
};
use crate::help_words::{about, others};
use crate::people_words::people;
use crate::words::{Grammar, Word, WordForm};
use std::io;
use std::io::Write;

/// A shell whose words are completed.
#[derive(Clone, Copy, Debug, PartialEq, Eq)]
pub enum Shell {
    Bash,
    Zsh,
    Fish,
}

impl Shell {
    /// The shell of that name; bash where there is no name. None where no shell has it.
    pub fn named(name: Option<&str>) -> Option<Shell> {
        match name {
            None | Some("bash") => Some(Shell::Bash),
            Some("zsh") => Some(Shell::Zsh),
            Some("fish") => Some(Shell::Fish),
            Some(_) => None,
        }
    }
}

/// What comes before the names of the commands in zsh.
const ZSH_HEAD: &str = "#compdef bac
# Completes the commands of bac and their arguments in zsh.
_bac() {
    if (( CURRENT == 2 )); then
        compadd --";

/// What comes between the names and the words of the commands.
const ZSH_MIDDLE: &str = "
    elif [[ ${words[CURRENT]} == -* ]]; then
        case ${words[2]} in
";

/// What comes behind the words of the commands.
const ZSH_TAIL: &str = "        esac
    else
        _files
    fi
}
if [ \"$funcstack[1]\" = _bac ]; then
    _bac \"$@\"
else
    compdef _bac bac
fi
";

/// What comes before the commands in fish.
const FISH_HEAD: &str = "# Completes the commands of bac and their arguments in fish.
complete -c bac -n __fish_use_subcommand -f
";

/// Writes the line of zsh for a command: its words that begin with two hyphens.
fn write_zsh_case<O: Write>(out: &mut O, grammar: &Grammar) -> io::Result<()> {
    let name = grammar.name;
    write!(out, "            {name}) compadd -- --help")?;
    write_options(out, grammar)?;
    out.writeln(" ;;")
}

/// Writes the lines of zsh for some commands.
fn write_zsh_cases<O: Write>(out: &mut O, grammars: &[Grammar]) -> io::Result<()> {
    for grammar in grammars {
        write_zsh_case(out, grammar)?;
    }
    Ok(())
}

/// Writes the script for zsh: it completes the commands, their words that begin with two hyphens, and otherwise the names of files.
fn write_zsh<O: Write>(out: &mut O) -> io::Result<()> {
    out.write_all(ZSH_HEAD.as_bytes())?;
    write_all_names(out)?;
    out.write_all(ZSH_MIDDLE.as_bytes())?;
    write_zsh_cases(out, people())?;
    write_zsh_cases(out, others())?;
    write_zsh_cases(out, about())?;
    out.write_all(ZSH_TAIL.as_bytes())
}

/// What fish is told of the text behind a word: that there is one, and which words it may be.
fn write_fish_text<O: Write>(out: &mut O, word: &Word) -> io::Result<()> {
    match word.form {
        WordForm::Choice(_, names) => {
            out.write_all(b" -x -a '")?;
            write_choices(out, names)?;
            out.writeln("'")
        }
        WordForm::Text("FILE" | "DIR") => out.writeln(" -r"),
        WordForm::Text(_) | WordForm::Number(_, _) | WordForm::Index(_, _) => out.writeln(" -x"),
        _ => out.writeln(""),
    }
}

/// Writes the lines of fish for a command: its name, and its words that begin with two hyphens.
fn write_fish_command<O: Write>(out: &mut O, grammar: &Grammar) -> io::Result<()> {
    let command = grammar.name;
    writeln!(out, "complete -c bac -n __fish_use_subcommand -a {command}")?;
    for line in grammar.words.lines() {
        let word = Word::of(line);
        if has_hyphens(&word) {
            let name = word.name;
            write!(
                out,
                "complete -c bac -n '__fish_seen_subcommand_from {command}' -l {name}"
            )?;
            write_fish_text(out, &word)?;
        }
    }
    Ok(())
}

/// Writes the lines of fish for some commands.
fn write_fish_commands<O: Write>(out: &mut O, grammars: &[Grammar]) -> io::Result<()> {
    for grammar in grammars {
        write_fish_command(out, grammar)?;
    }
    Ok(())
}

/// Writes the script for fish: it completes the commands, their words that begin with two hyphens, and otherwise the names of files.
fn write_fish<O: Write>(out: &mut O) -> io::Result<()> {
    out.write_all(FISH_HEAD.as_bytes())?;
    write_fish_commands(out, people())?;
    write_fish_commands(out, others())?;
    write_fish_commands(out, about())
}

/// Writes the script that completes words in a shell.
pub(crate) fn write_script<O: Write>(shell: Shell, out: &mut O) -> io::Result<()> {
    match shell {
        Shell::Bash => write_completion(out),
        Shell::Zsh => write_zsh(out),
        Shell::Fish => write_fish(out),
    }
}
