//! How complaints of a command line are shown.
ghost use Rattle.std.specs.Prelude.{◌≡◌};
ghost use Rattle.bac_command_line.specs.Complaints.{complaints_of, draws_progress, is_of_files};

use bac_shown::Form;
use clap::ArgMatches;

/// Whether a command reads or writes whole files.
fn is_of_files(command: &str) -> bool
    ensures { result ≡ is_of_files command.now }
{
    command == "get" || command == "put" || command == "backup" || command == "restore"
}

/// Whether a command draws its progress on a terminal, by control characters of its own.
fn draws_progress(command: &str) -> bool
    ensures { result ≡ draws_progress command.now }
{
    is_of_files(command) || command == "ask"
}

/// How complaints of a command are shown: as they come where progress is drawn between them, as objects of JSON where a server's log has these.
fn complaints_of(command: &str, is_terminal: bool, is_json: bool) -> Option<Form>
    ensures { result ≡ complaints_of command.now is_terminal is_json }
{
    if is_terminal && draws_progress(command) {
        None
    } else if command == "serve" && is_json {
        Some(Form::Json)
    } else {
        Some(Form::Text)
    }
}

/// How complaints of a command line are shown, by what clap makes of its words.
pub(crate) fn form_of_complaints(
    parsed: &Result<ArgMatches<'_>, clap::Error>,
    is_terminal: bool,
) -> Option<Form> {
    let Ok(matches) = parsed else {
        return Some(Form::Text);
    };
    match matches.subcommand() {
        Some((command, given)) => complaints_of(command, is_terminal, given.get_flag("json")),
        None => Some(Form::Text),
    }
}
