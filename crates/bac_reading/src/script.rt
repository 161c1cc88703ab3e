//! Scripts of files: what `simulate` does.
ghost use Rattle.bac_reading.specs.Scripts.{IsRun, IsRunFile};
ghost use Rattle.bac_environment.specs.Files.{OnFile};

use crate::files::watched_of;
use crate::reasons::print_unfit;
use bac_environment::OpenFiles;
use bac_simulate::{View, show_over, simulate_lines_over};
use bac_text::Status;
use std::alloc::Global;
use std::io::{Read, Write};

/// What is told of a script that is not run.
const NOTHING_HAPPENED: &str = "no event happened";

/// The file of a script, and how it is read.
#[derive(Clone, Copy)]
pub struct ScriptFile<'a> {
    /// The path; `-` is standard input.
    pub path: &'a str,
    /// Whether the script may have notes.
    pub notes: bool,
    /// Whether the reason is printed for an invalid line.
    pub reasons: bool,
}

impl ScriptFile<'_> {
    /// What is told where the script could not be read and the system gives no reason. Each event is printed with its own reason, where reasons are told.
    fn told(&self, view: Option<View>) -> Option<&'static str> {
        if view.is_some() || self.reasons {
            Some(NOTHING_HAPPENED)
        } else {
            None
        }
    }

    /// Runs the script of an input.
    fn run<R: Read, O: Write, E: Write>(
        &self,
        alloc: Global,
        view: Option<View>,
        input: &mut R,
        out: &mut O,
        err: &mut E,
    ) -> Status
        ensures { IsRun view self.now.notes (R.remaining input.old) (O.contents out.old) (O.contents out.new) result }
    {
        match view {
            Some(view) => show_over(alloc, view, self.notes, input, out, err),
            None => simulate_lines_over(alloc, self.notes, self.reasons, input, out, err),
        }
    }
}

/// Runs a script. Prints each event, or shows the whole run as `view` says. If the file cannot be read, prints `cannot read` and the reason on `err`.
pub fn simulate<F: OpenFiles, O: Write, E: Write>(
    alloc: Global,
    files: &F,
    view: Option<View>,
    script: &ScriptFile<'_>,
    out: &mut O,
    err: &mut E,
) -> Status
    ensures { IsRunFile (OnFile F.is_file F.File.remaining) view script.now.notes script.now.path.now result (O.contents out.old) (O.contents out.new) }
{
    match watched_of(files, script.path, None, err) {
        Ok(mut file) => {
            let status = script.run(alloc, view, &mut file, out, err);
            print_unfit(status, script.path, &file, script.told(view), err);
            status
        }
        Err(status) => status,
    }
}
