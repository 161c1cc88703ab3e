//! Asks whose ends are printed as records: objects of JSON, or rows of CSV.
ghost use Rattle.std.specs.Prelude.{◌≡◌, IfErr, IfOk, OnOk};
ghost use Rattle.bac_ask_report.specs.Records.{outcome_view, record_view};
ghost use Rattle.bac_environment.specs.QuestionLines.{asker_view};
ghost use Rattle.bac_asking.specs.Recording.{AreWordsOf, IsRecordText, PrintsAsk, PrintsHeader, PrintsRecord, outcome_of, outcome_of_ending, without_end};
ghost use Rattle.bac_driver.specs.Views.{question_view};
ghost use Rattle.bac_service.specs.Views.{owned_request_view};
ghost use Rattle.bac_text.specs.Statuses.{IsFailure};
ghost use Rattle.bac_text.specs.Texts.{AppendsText};

use crate::asking::Asking;
use bac_ask_report::{
    AskRecord, CellText, Outcome, print_ask_object, print_csv_header, print_csv_row,
};
use bac_commands::{OutputFormat, Style, print_ask_end};
use bac_driver::{AskEnd, Question};
use bac_environment::Asker;
use bac_requester::Ending;
use bac_service::OwnedRequest;
use bac_text::{Status, output_failed};
use std::alloc::Global;
use std::io;
use std::io::Write;

/// The form of the records that results are printed as.
#[derive(Clone, Copy, PartialEq, Eq)]
pub enum RecordForm {
    /// An object of JSON on each line.
    Json,
    /// A row of CSV on each line, below one with the names of the columns.
    Csv(CellText),
}

/// When an ask ended, and in which round.
#[derive(Clone, Copy)]
pub(crate) struct Stamp {
    /// In milliseconds since 1970 began in UTC; None where the time of day cannot be read.
    pub time: Option<u64>,
    /// Counted from 1; None where there are no rounds.
    pub round: Option<u64>,
}

/// How the ends of asks are printed, and when.
#[derive(Clone, Copy)]
pub(crate) struct Printer<'a> {
    pub alloc: Global,
    pub asking: &'a Asking,
    pub stamp: Stamp,
}

impl<'a> Printer<'a> {
    /// The same for an ask that ended at another time of day.
    pub(crate) fn at(&self, time: Option<u64>) -> Printer<'a> {
        Printer {
            alloc: self.alloc,
            asking: self.asking,
            stamp: Stamp {
                time,
                round: self.stamp.round,
            },
        }
    }
}

// ---- how an ask ended

fn outcome_of_ending(ending: &Ending) -> Outcome<'_>
    ensures { outcome_view result ≡ outcome_of_ending ending.now }
{
    match ending {
        Ending::Answered(reply) => Outcome::Answered(reply.as_reply()),
        Ending::Rejected(reason) => Outcome::Rejected(*reason),
        Ending::Aborted(reason) => Outcome::Aborted(*reason),
        Ending::TimedOut => Outcome::TimedOut,
        Ending::Expired => Outcome::Expired,
    }
}

/// How an ask ended, as reports tell it.
pub fn outcome_of(end: &AskEnd) -> Outcome<'_>
    ensures { outcome_view result ≡ outcome_of end.now }
{
    match end {
        AskEnd::Ended(ending) => outcome_of_ending(ending),
        AskEnd::Refused(fault) => Outcome::Refused(fault.number()),
        AskEnd::NoEnding => Outcome::NoEnding,
    }
}

/// Takes the last octet away.
fn take_end(line: &mut Vec<u8>)
    ensures { line.new.items ≡ without_end line.old.items }
{
    let _ = line.pop();
}

/// How an ask ended in words, and whether it succeeded.
#[derive(Drop)]
pub(crate) struct EndWords {
    pub words: Vec<u8>,
    pub succeeded: bool,
}

/// The line of `ask --text` without its end.
fn words_of(
    alloc: Global,
    strict: bool,
    request: &OwnedRequest,
    end: &AskEnd,
) -> io::Result<EndWords>
    ensures { IfOk result (λ w. AreWordsOf strict (owned_request_view request.now) end.now w.words.items w.succeeded) }
{
    let output_format = OutputFormat {
        style: Style::Words,
        strict,
    };
    let mut words = Vec::new(alloc);
    let succeeded = print_ask_end(
        alloc,
        output_format,
        request,
        end,
        &mut words,
        &mut io::sink(),
    )?;
    take_end(&mut words);
    Ok(EndWords { words, succeeded })
}

// ---- records

fn print_in<O: Write>(
    alloc: Global,
    form: RecordForm,
    ask: &AskRecord<'_, '_, '_>,
    out: &mut O,
) -> io::Result<()>
    ensures { OnOk result (AppendsText (O.contents out.old) (O.contents out.new) (IsRecordText form (record_view ask.now))) }
{
    match form {
        RecordForm::Json => print_ask_object(alloc, ask, out),
        RecordForm::Csv(texts) => print_csv_row(alloc, texts, ask, out),
    }
}

/// Prints as a record how an ask of a line, or of none, ended. Answers whether it succeeded.
fn print_record<O: Write>(
    printer: &Printer<'_>,
    form: RecordForm,
    asker: Asker<'_>,
    question: &Question,
    end: &AskEnd,
    out: &mut O,
) -> io::Result<bool>
    ensures { IfOk result (λ succeeded. PrintsRecord form printer.now.asking.now.output_format.strict (asker_view asker.entry) (question_view question.now) end.now succeeded
        (O.contents out.old) (O.contents out.new)) }
{
    let alloc = printer.alloc;
    let strict = printer.asking.output_format.strict;
    let told = words_of(alloc, strict, &question.request, end)?;
    let ask = AskRecord {
        time: printer.stamp.time,
        line: asker.line,
        name: asker.name,
        round: printer.stamp.round,
        peer: question.peer,
        request: question.request.as_request(),
        outcome: outcome_of(end),
        words: &told.words,
    };
    print_in(alloc, form, &ask, out)?;
    out.flush()?;
    Ok(told.succeeded)
}

/// Prints how an ask of a line, or of none, ended, without the line's number before it. Answers whether it succeeded.
fn print_end<O: Write, E: Write>(
    printer: &Printer<'_>,
    asker: Asker<'_>,
    question: &Question,
    end: &AskEnd,
    out: &mut O,
    err: &mut E,
) -> io::Result<bool>
    ensures { IfOk result (λ succeeded. PrintsAsk printer.now.asking.now.records printer.now.asking.now.output_format (asker_view asker.entry) (question_view question.now) end.now succeeded
        (O.contents out.old) (O.contents out.new)) }
{
    let request = &question.request;
    let output_format = printer.asking.output_format;
    match printer.asking.records {
        Some(form) => print_record(printer, form, asker, question, end, out),
        None => print_ask_end(printer.alloc, output_format, request, end, out, err),
    }
}

/// The same; where that fails, `err` and the status say so.
pub(crate) fn print_ask<O: Write, E: Write>(
    printer: &Printer<'_>,
    asker: Asker<'_>,
    question: &Question,
    end: &AskEnd,
    out: &mut O,
    err: &mut E,
) -> Result<bool, Status>
    ensures told { IfOk result (λ succeeded. PrintsAsk printer.now.asking.now.records printer.now.asking.now.output_format (asker_view asker.entry) (question_view question.now) end.now succeeded
        (O.contents out.old) (O.contents out.new)) }
    ensures failed { IfErr result IsFailure }
{
    match print_end(printer, asker, question, end, out, err) {
        Ok(succeeded) => Ok(succeeded),
        Err(error) => Err(output_failed(err, &error)),
    }
}

/// Prints as a record that there was no link from which a line, or none, could be asked.
pub(crate) fn print_unasked_record<O: Write>(
    printer: &Printer<'_>,
    form: RecordForm,
    asker: Asker<'_>,
    question: &Question,
    out: &mut O,
) -> io::Result<()> {
    let ask = AskRecord {
        time: printer.stamp.time,
        line: asker.line,
        name: asker.name,
        round: printer.stamp.round,
        peer: question.peer,
        request: question.request.as_request(),
        outcome: Outcome::NoLink,
        words: b"link fault",
    };
    print_in(printer.alloc, form, &ask, out)?;
    out.flush()
}

fn print_names<O: Write>(
    alloc: Global,
    records: Option<RecordForm>,
    has_names: bool,
    out: &mut O,
) -> io::Result<()>
    ensures { OnOk result (PrintsHeader records has_names (O.contents out.old) (O.contents out.new)) }
{
    match records {
        Some(RecordForm::Csv(_)) => print_csv_header(alloc, has_names, out),
        Some(RecordForm::Json) => Ok(()),
        None => Ok(()),
    }
}

/// Prints what stands above records: for CSV the names of the columns. If that fails, prints why on `err`, and returns the status.
pub fn print_header<O: Write, E: Write>(
    alloc: Global,
    asking: &Asking,
    out: &mut O,
    err: &mut E,
) -> Result<(), Status>
    ensures printed { IfOk result (λ _. PrintsHeader asking.now.records asking.now.has_names (O.contents out.old) (O.contents out.new)) }
    ensures failed { IfErr result IsFailure }
{
    match print_names(alloc, asking.records, asking.has_names, out) {
        Ok(()) => Ok(()),
        Err(error) => Err(output_failed(err, &error)),
    }
}
