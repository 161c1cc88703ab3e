//! How the end of the ask of a line is printed.
ghost use Rattle.std.specs.Prelude.{IfErr, IfOk, OnOk};
ghost use Rattle.std.specs.Io.KnownBytes.{Appends};
ghost use Rattle.bac_text.specs.Statuses.{IsFailure};
ghost use Rattle.bac_environment.specs.QuestionLines.{name_in_line};
ghost use Rattle.bac_asking.specs.AskedLines.{PrintsFront, front_text};
ghost use Rattle.bac_asking.specs.InFlight.{PrintsLine};

use crate::recording::{Printer, RecordForm, print_ask};
use bac_driver::AskEnd;
use bac_environment::LineQuestion;
use bac_text::{Status, output_failed};
use std::io;
use std::io::Write;

/// Prints the number of a line, and its name if it has one.
pub(crate) fn write_front<O: Write>(line: &LineQuestion, out: &mut O) -> io::Result<()>
    ensures { OnOk result (Appends (O.contents out.old) (O.contents out.new) (front_text line.now.number (name_in_line line.now))) }
{
    let number = line.number;
    match &line.name {
        Some(name) => write!(out, "{number}: {name}: "),
        None => write!(out, "{number}: "),
    }
}

fn print_plain_front<O: Write, E: Write>(
    line: &LineQuestion,
    out: &mut O,
    err: &mut E,
) -> Result<(), Status>
    ensures fronted { IfOk result (λ _. Appends (O.contents out.old) (O.contents out.new) (front_text line.now.number (name_in_line line.now))) }
    ensures failed { IfErr result IsFailure }
{
    match write_front(line, out) {
        Ok(()) => Ok(()),
        Err(error) => Err(output_failed(err, &error)),
    }
}

/// Prints the number of a line, and its name if it has one, where no records are printed.
pub(crate) fn print_front<O: Write, E: Write>(
    records: Option<RecordForm>,
    line: &LineQuestion,
    out: &mut O,
    err: &mut E,
) -> Result<(), Status>
    ensures fronted { IfOk result (λ _. PrintsFront records line.now (O.contents out.old) (O.contents out.new)) }
    ensures failed { IfErr result IsFailure }
{
    match records {
        Some(_) => Ok(()),
        None => print_plain_front(line, out, err),
    }
}

/// Prints how the ask of a line ended, behind the line's number. Answers whether it succeeded.
pub(crate) fn print_line<O: Write, E: Write>(
    printer: &Printer<'_>,
    line: &LineQuestion,
    end: &AskEnd,
    out: &mut O,
    err: &mut E,
) -> Result<bool, Status>
    ensures told { IfOk result (λ succeeded. PrintsLine printer.now.asking.now line.now end.now succeeded
        (O.contents out.old) (O.contents out.new)) }
    ensures failed { IfErr result IsFailure }
{
    print_front(printer.asking.records, line, out, err)?;
    let asker = line.asker(printer.asking.has_names);
    print_ask(printer, asker, &line.question, end, out, err)
}
