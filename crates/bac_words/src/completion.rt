//! The script that completes words in bash.
use crate::help_words::{about, others};
use crate::people_words::people;
use crate::words::{Grammar, Word, WordForm};
use std::io;
use std::io::Write;

/// What comes before the commands.
const HEAD: &str = "# Completes the commands of bac and their arguments in bash.
_bac() {
    local now=\"${COMP_WORDS[COMP_CWORD]}\" before=\"${COMP_WORDS[COMP_CWORD-1]}\" words=
    if [ \"$COMP_CWORD\" -eq 1 ]; then
        words=\"";

/// What comes between the names of the commands and their words.
const MIDDLE: &str = "\"
    else
        case \"${COMP_WORDS[1]}\" in
";

/// What comes behind the words of the commands.
const TAIL: &str = "        esac
    fi
    COMPREPLY=($(compgen -W \"$words\" -- \"$now\"))
    case \"${COMPREPLY[0]}\" in *:) compopt -o nospace ;; esac
}
complete -o default -F _bac bac
";

/// What completes a form of datagrams.
const FORMS: &str = "words=\"auto base64 c escaped hex hexdump\"";

/// What completes a text of which nothing is known.
const NOTHING: &str = "words=; compopt +o default";

/// What stands in requests: the requests, and the kinds of values.
const REQUESTS: &str = "read write append put get priority null boolean: unsigned: signed: \
enumerated: real: double: real-octets: double-octets: octets: text: characters: bits: date: time: object:";

/// What completes a word of a request.
const REQUEST_CASE: &str = "                    *) case \"$now\" in
                        -*) ;;
                        @*) COMPREPLY=($(compgen -f -P @ -- \"${now#@}\")); return ;;
                        *) words=\"";

/// What completes a word that is the name of a file.
const FILE_CASE: &str = "                    *) case \"$now\" in -*) ;; *) words= ;; esac ;;
";

/// Writes the names of some commands, each behind a space.
pub(crate) fn write_names<O: Write>(out: &mut O, grammars: &[Grammar]) -> io::Result<()> {
    for grammar in grammars {
        let name = grammar.name;
        write!(out, " {name}")?;
    }
    Ok(())
}

/// Writes the names of all commands, each behind a space.
pub(crate) fn write_all_names<O: Write>(out: &mut O) -> io::Result<()> {
    write_names(out, people())?;
    write_names(out, others())?;
    write_names(out, about())
}

/// Whether a word begins with two hyphens.
pub(crate) fn has_hyphens(word: &Word) -> bool {
    !matches!(
        word.form,
        WordForm::Bare | WordForm::Several | WordForm::OneOf(_)
    )
}

/// Writes words, each behind a space.
pub(crate) fn write_choices<O: Write>(out: &mut O, words: &[&str]) -> io::Result<()> {
    for word in words {
        write!(out, " {word}")?;
    }
    Ok(())
}

/// What completes the text behind a word, by what help calls that text: the names of files, forms, or nothing.
fn completed(text: &str) -> &'static str {
    match text {
        "FILE" | "DIR" => "words=",
        "FORM" => FORMS,
        _ => NOTHING,
    }
}

/// Writes the line of what completes the text behind a word.
fn write_line<O: Write>(out: &mut O, name: &str, completed: &str) -> io::Result<()> {
    writeln!(out, "                    --{name}) {completed} ;;")
}

/// Writes the line of the words of which one stands behind a word.
fn write_choice<O: Write>(out: &mut O, name: &str, words: &[&str]) -> io::Result<()> {
    write!(out, "                    --{name}) words=\"")?;
    write_choices(out, words)?;
    out.writeln("\" ;;")
}

/// Writes what completes the text behind a word, where it has one.
fn write_behind<O: Write>(out: &mut O, word: &Word) -> io::Result<()> {
    match word.form {
        WordForm::Bare | WordForm::Several | WordForm::OneOf(_) | WordForm::Flag => Ok(()),
        WordForm::Text(text) => write_line(out, word.name, completed(text)),
        WordForm::Choice(_, names) => write_choice(out, word.name, names),
        WordForm::Number(_, _) | WordForm::Index(_, _) => write_line(out, word.name, NOTHING),
    }
}

/// Writes what completes a word that stands by itself: the name of a file, or a word of a request.
fn write_bare<O: Write>(out: &mut O, word: &Word) -> io::Result<()> {
    match (word.form, word.name) {
        (WordForm::Bare, "FILE") => out.write_all(FILE_CASE.as_bytes()),
        (WordForm::Several, "WORDS") => {
            out.write_all(REQUEST_CASE.as_bytes())?;
            out.write_all(REQUESTS.as_bytes())?;
            out.writeln("\" ;;")?;
            out.writeln("                    esac ;;")
        }
        _ => Ok(()),
    }
}

/// Writes the words of a command that begin with two hyphens, each behind a space.
pub(crate) fn write_options<O: Write>(out: &mut O, grammar: &Grammar) -> io::Result<()> {
    for line in grammar.words.lines() {
        let word = Word::of(line);
        if has_hyphens(&word) {
            let name = word.name;
            write!(out, " --{name}")?;
        }
    }
    Ok(())
}

/// Writes what completes the words of a command: first the texts behind others, and then what stands by itself.
fn write_words<O: Write>(out: &mut O, grammar: &Grammar) -> io::Result<()> {
    for line in grammar.words.lines() {
        write_behind(out, &Word::of(line))?;
    }
    for line in grammar.words.lines() {
        write_bare(out, &Word::of(line))?;
    }
    Ok(())
}

/// Writes the lines of a command: its words that begin with two hyphens, and what completes others.
fn write_case<O: Write>(out: &mut O, grammar: &Grammar) -> io::Result<()> {
    let name = grammar.name;
    write!(out, "            {name})\n                words=\"--help")?;
    write_options(out, grammar)?;
    out.writeln("\"")?;
    out.writeln("                case \"$before\" in")?;
    write_words(out, grammar)?;
    out.writeln("                esac ;;")
}

/// Writes the lines of some commands.
fn write_cases<O: Write>(out: &mut O, grammars: &[Grammar]) -> io::Result<()> {
    for grammar in grammars {
        write_case(out, grammar)?;
    }
    Ok(())
}

/// Writes a script for bash that completes the commands, their words that begin with two hyphens, what stands behind these, words of requests, and otherwise the names
/// of files.
pub(crate) fn write_completion<O: Write>(out: &mut O) -> io::Result<()> {
    out.write_all(HEAD.as_bytes())?;
    write_all_names(out)?;
    out.write_all(MIDDLE.as_bytes())?;
    write_cases(out, people())?;
    write_cases(out, others())?;
    out.writeln("            completion) words=\"bash zsh fish\" ;;")?;
    out.write_all(b"            help) words=\"--all --man")?;
    write_all_names(out)?;
    out.writeln("\" ;;")?;
    out.write_all(TAIL.as_bytes())
}
