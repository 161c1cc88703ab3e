//! Command lines, read by the table of commands.
use crate::help_words::{about, others};
use crate::people_words::people;
use crate::unexpected::clearer;
use crate::words::{Grammar, Need, Word, WordForm};
use clap::builder::ValueParser;
use clap::{Arg, ArgAction, ArgGroup, ArgMatches, Command};
use std::alloc::{AllocError, Global};

/// An argument that has a text behind its name.
fn text<'a>(arg: Arg<'a>, name: &'a str, value: &'a str) -> Arg<'a> {
    arg.long(name).action(ArgAction::Set).value_name(value)
}

/// An argument that is given as its word's form says.
fn formed<'a>(arg: Arg<'a>, name: &'a str, form: WordForm) -> Arg<'a> {
    match form {
        WordForm::Bare => arg.action(ArgAction::Set),
        WordForm::OneOf(names) => arg
            .action(ArgAction::Set)
            .value_parser(ValueParser::Names(names)),
        WordForm::Several => arg
            .num_args(1..)
            .action(ArgAction::Append)
            .allow_negative_numbers(true),
        WordForm::Flag => arg.long(name).action(ArgAction::SetTrue),
        WordForm::Text(value) => text(arg, name, value),
        WordForm::Number(value, most) => {
            let parser = ValueParser::unsigned(1, most);
            text(arg, name, value).value_parser(parser)
        }
        WordForm::Index(value, most) => {
            let parser = ValueParser::unsigned(0, most);
            text(arg, name, value).value_parser(parser)
        }
        WordForm::Choice(value, names) => {
            let parser = ValueParser::Names(names);
            text(arg, name, value).value_parser(parser)
        }
    }
}

/// An argument that has to be given where its word's need says so.
fn needed<'a>(arg: Arg<'a>, need: Need) -> Result<Arg<'a>, clap::Error> {
    match need {
        Need::Always => Ok(arg.required(true)),
        Need::Unless(other) => Ok(arg.required_unless_present(other)?),
        // their group says so
        Need::One(_) | Need::Never => Ok(arg),
        Need::Beside(other) => Ok(arg.requires_arg(other)?),
    }
}

/// The words of a text with spaces between.
fn words_in(alloc: Global, text: &'static str) -> Result<Vec<&'static str>, AllocError> {
    text.split_whitespace().collect(alloc)
}

fn argument<'a>(alloc: Global, word: &Word) -> Result<Arg<'a>, clap::Error> {
    let against = words_in(alloc, word.against)?;
    let arg = Arg::new(alloc, word.name).help(word.help);
    let arg = arg.conflicts_with_all(&against)?;
    needed(formed(arg, word.name, word.form), word.need)
}

/// A command without its words.
fn titled<'a>(alloc: Global, grammar: &Grammar) -> Command<'a> {
    Command::new(alloc, grammar.name)
        .about(grammar.about)
        .after_help(grammar.after)
}

/// A command, one of whose words in a group is required where the need of a word says so.
fn grouped<'a>(
    alloc: Global,
    command: Command<'a>,
    need: Need,
) -> Result<Command<'a>, clap::Error> {
    let Need::One(names) = need else {
        return Ok(command);
    };
    let names = words_in(alloc, names)?;
    let group = ArgGroup::new(alloc, "the node");
    let group = group.args(&names)?.multiple(true).required(true);
    Ok(command.group(group)?)
}

/// A command with its words.
pub(crate) fn command_of<'a>(alloc: Global, grammar: &Grammar) -> Result<Command<'a>, clap::Error> {
    let mut command = titled(alloc, grammar);
    for line in grammar.words.lines() {
        let word = Word::of(line);
        command = command.arg(argument(alloc, &word)?)?;
        command = grouped(alloc, command, word.need)?;
    }
    Ok(command)
}

/// A program with more commands.
fn with_commands<'a>(
    alloc: Global,
    program: Command<'a>,
    grammars: &[Grammar],
) -> Result<Command<'a>, clap::Error> {
    let mut program = program;
    for grammar in grammars {
        program = program.subcommand(command_of(alloc, grammar)?)?;
    }
    Ok(program)
}

/// The program with those of its commands that are for people.
fn with_people<'a>(alloc: Global) -> Result<Command<'a>, clap::Error> {
    let bac = Command::new(alloc, "bac")
        .about("BACnet confirmed services")
        .subcommand_required(true)
        .disable_help_subcommand(true);
    with_commands(alloc, bac, people())
}

/// The program with those and the others that do what it is for.
fn with_others<'a>(alloc: Global) -> Result<Command<'a>, clap::Error> {
    with_commands(alloc, with_people(alloc)?, others())
}

/// The program with all of its commands: a table a function.
fn commands<'a>(alloc: Global) -> Result<Command<'a>, clap::Error> {
    with_commands(alloc, with_others(alloc)?, about())
}

/// The error, or a clearer one in its place where one word was meant to be another.
fn advised(alloc: Global, words: &[String], error: clap::Error) -> clap::Error {
    match clearer(alloc, words, &error) {
        Ok(Some(clearer)) => clearer,
        Ok(None) => error,
        Err(failed) => failed,
    }
}

/// What the words of a command line give: the first is the program's name, the next a command's, and behind it stand words of that command, each as its table
/// says. The words that it gives are borrowed of the line.
///
/// An Err whose kind is `OutOfMemory` says that memory was refused. Any other has the text for who wrote the line: its words have no such form, or one is
/// `--help`. Where a word is not taken that is meant to be an option or its text, as `-to` or an address, it says which.
pub fn matches<'a>(alloc: Global, words: &'a [String]) -> Result<ArgMatches<'a>, clap::Error> {
    match commands(alloc)?.try_get_matches_from(words) {
        Ok(matches) => Ok(matches),
        Err(error) => Err(advised(alloc, words, error)),
    }
}
