//! `keep --forget`: forgetting some of what the file of a server keeps.
ghost use Rattle.std.specs.Prelude.{IfOk};
ghost use Rattle.std.specs.Option.{option_map};
ghost use Rattle.bac_text.specs.Statuses.{IsStop};
ghost use Rattle.bac_serving.specs.Forgetting.{IsForgotten, Names, OnForgotten};
ghost use Rattle.bac_serving.specs.Keeping.{IsListed, IsThere, IsToldOf};

use crate::keep_faults::print_keep_fault;
use crate::keeping::{open_kept, print_not_kept};
use crate::listing::{ListForm, print_cells, refuse_missing};
use crate::part_words::print_about;
use bac_commands::CommandError;
use bac_environment::{Environment, OpenFiles, print_bad_name};
use bac_keep::{DatabaseFault, KeepFault};
use bac_keep_file::{Databases, Loss, Selection, forget};
use bac_service_text::{BadWord, Wanted};
use bac_text::{Status, no_memory, output_failed};
use bac_value_text::{object_in, property_in};
use std::alloc::Global;
use std::io::Write;

/// What the file at a path is to forget, as the arguments of `keep --forget` say.
#[derive(Clone, Copy)]
pub struct Forgetting<'a> {
    /// The path of the file.
    pub path: &'a str,
    /// The text of the object.
    pub object: &'a str,
    /// The text of the property. None for all that is kept of the object.
    pub property: Option<&'a str>,
}

/// A word that is not the wanted one.
fn bad(wanted: Wanted, word: &str) -> BadWord<'_> {
    BadWord {
        wanted,
        word: Some(word.as_bytes()),
    }
}

impl<'a> Forgetting<'a> {
    /// What its words select. An Err has the word that names no object, or no property.
    fn selection(self) -> Result<Selection, BadWord<'a>>
        ensures { IfOk result (Names self.entry.object.now (option_map (λ p. p.now) self.entry.property)) }
    {
        let Some(object) = object_in(self.object.as_bytes()) else {
            return Err(bad(Wanted::Object, self.object));
        };
        let Some(word) = self.property else {
            return Ok(Selection {
                object,
                property: None,
            });
        };
        match property_in(word.as_bytes()) {
            Some(number) => Ok(Selection {
                object,
                property: Some(number),
            }),
            None => Err(bad(Wanted::Property, word)),
        }
    }
}

/// Complains of a database that does not forget. A disk that fails is outside of the program.
fn print_not_forgotten<E: Write>(alloc: Global, path: &str, fault: KeepFault, err: &mut E) -> Status
    ensures { IsStop result }
{
    match fault {
        KeepFault::Database(DatabaseFault::Io) | KeepFault::Database(DatabaseFault::Full) => {
            let status = CommandError::Keep(fault).report(err);
            print_keep_fault(path, Some(fault), err);
            status
        }
        KeepFault::Database(DatabaseFault::OutOfMemory) => no_memory(err),
        other => print_not_kept(alloc, path, other, err),
    }
}

/// Complains that nothing of a selection is kept.
fn print_nothing_kept<E: Write>(
    alloc: Global,
    path: &str,
    selection: Selection,
    err: &mut E,
) -> Status
    ensures { IsStop result }
{
    let Selection { object, property } = selection;
    // if that fails too, only the status is left
    let _ = print_about(alloc, path, object, property, "nothing of it is kept", err);
    Status::CommandLine
}

/// Forgets what the file at a path keeps of an object or a property, in one commit. Then prints what it forgot, in the lines of `keep`. The next start has the
/// values of its document there.
///
/// If a text names no object or property, nothing of it is kept, or the file is missing, damaged or in use, prints why on `err`. Then the file keeps what it
/// kept. If the disk fails, prints `keep fault`, the path and the reason.
pub fn forget_kept<F: OpenFiles, M: Databases, O: Write, E: Write>(
    environment: &Environment<'_, F, M>,
    forgetting: Forgetting<'_>,
    out: &mut O,
    err: &mut E,
) -> Status
    ensures listed { IsListed result (O.contents out.old) (O.contents out.new) }
    ensures there { IsToldOf result (IsThere F.is_file forgetting.entry.path.now) }
    ensures forgotten { IsForgotten (OnForgotten M.is_database M.Database.view M.Database.recovers) result forgetting.entry.path.now
        forgetting.entry.object.now (option_map (λ p. p.now) forgetting.entry.property) (O.contents out.old) (O.contents out.new) }
{
    let alloc = environment.alloc;
    let path = forgetting.path;
    let selection = match forgetting.selection() {
        Ok(selection) => selection,
        Err(word) => return print_bad_name(alloc, word, err),
    };
    if let Err(status) = refuse_missing(environment.files, path, err) {
        return status;
    }
    let (mut database, _) = match open_kept(environment.machine, path, Loss::Refused, err) {
        Ok(opened) => opened,
        Err(status) => return status,
    };
    let cells = match forget(alloc, &mut database, selection) {
        Ok(cells) => cells,
        Err(fault) => return print_not_forgotten(alloc, path, fault, err),
    };
    if cells.is_empty() {
        drop(cells);
        drop(database);
        return print_nothing_kept(alloc, path, selection, err);
    }
    match print_cells(alloc, ListForm::Lines, &cells, out) {
        Ok(()) => {
            drop(cells);
            drop(database);
            Status::Done
        }
        Err(error) => {
            let status = output_failed(err, &error);
            drop(cells);
            drop(database);
            status
        }
    }
}
