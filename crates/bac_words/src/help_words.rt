//! The commands that tell of the program itself, and more examples for help.
use crate::people_words::people;
use crate::words::{Grammar, OTHERS};

/// What `help` takes.
const HELP: &str = "\
COMMAND|bare|never|man all|The command to explain, or a list of names to print: `types` (of objects), `properties`, `units`, an enumeration such as `binary-pv`, or `values`, which lists the enumerations. Without it, the commands are listed on one screen
all|flag|never|man|Lists all commands, and says what each does
man|flag|never||Prints the manual page, for `man`";

/// What `completion` takes.
const COMPLETION: &str = "\
SHELL|one-of|never||The shell: bash, zsh or fish; bash by default";

/// The commands that tell of the program, which help lists last.
const TOLD: &[Grammar] = &[
    Grammar {
        name: "help",
        about: "Explains a command: what it does, what its arguments mean, and examples",
        after: "Example: bac help ask\nExample: bac help units\nExample: bac help --man > bac.1",
        words: HELP,
    },
    Grammar {
        name: "version",
        about: "Prints the version of the program",
        after: "Example: bac version",
        words: "",
    },
    Grammar {
        name: "completion",
        about: "Prints a script for a shell that completes the commands and their arguments",
        after: "Example: bac completion > /usr/share/bash-completion/completions/bac\nExample: bac completion fish > ~/.config/fish/completions/bac.fish",
        words: COMPLETION,
    },
];

/// One more example of a command that has no second one of its own.
pub(crate) fn more_example(name: &str) -> Option<&'static str> {
    match name {
        "answer" => Some(
            "Example: bac answer --objects plant.toml 810A001101040005010C0C000000051955",
        ),
        "pair" => Some("Example: bac pair && echo both were answered"),
        "version" => Some("Example: bac version | cut -d ' ' -f 2"),
        "completion" => Some("Example: source <(bac completion)"),
        _ => None,
    }
}

/// The commands that are neither for people nor tell of the program. The prover writes out the table that a function names, so only this function names it.
pub(crate) fn others() -> &'static [Grammar] {
    OTHERS
}

/// The commands that tell of the program.
pub(crate) fn about() -> &'static [Grammar] {
    TOLD
}

/// The command of that name, among some.
fn among(name: &str, grammars: &'static [Grammar]) -> Option<&'static Grammar> {
    grammars.iter().find(|g| g.name == name)
}

/// The command of that name.
pub(crate) fn command_named(name: &str) -> Option<&'static Grammar> {
    if let Some(found) = among(name, people()) {
        return Some(found);
    }
    if let Some(found) = among(name, others()) {
        return Some(found);
    }
    among(name, about())
}
