//! `bac write`: a property gets a value.
ghost use Rattle.std.specs.Prelude.{◌≡◌, codes, map, IfErr, IfOk, OnOk};
ghost use Rattle.std.specs.Option.{option_map};
ghost use Rattle.std.specs.Io.KnownBytes.{Appends};
ghost use Rattle.bac_npdu.specs.Views.{peer_view};
ghost use Rattle.bac_service.specs.Values.Request.{ReadProperty};
ghost use Rattle.bac_service.specs.Views.{property_reference_view};
ghost use Rattle.bac_driver.specs.Runs.{timed};
ghost use Rattle.bac_driver.specs.Views.{question_view};
ghost use Rattle.bac_text.specs.Statuses.{IsFailure, IsStop};
ghost use Rattle.bac_point_report.specs.Outcomes.{values_of};
ghost use Rattle.bac_point_report.specs.Targets.{target_view};
ghost use Rattle.bac_asking.specs.Recording.{outcome_of};
ghost use Rattle.bac_environment.specs.Sockets.{OnClock, OnPort};
ghost use Rattle.bac_points.specs.Points.{WritesIfHeard};
ghost use Rattle.bac_points.specs.Writes.{AsksKind, FindsKind, IsKindOf, IsOrder, IsWriting, PrintsBack, PrintsFound, PrintsOther, ReadsBack, WritesAs, WritesByClient, WritesOnce, WritesOrder};
ghost use Rattle.bac_points.specs.Writes.{differs_line, lacks_value, name_of_number, order_view, ordered_in, writes_values};

use crate::performing::Desk;
use crate::questions::{question_by, question_for};
use crate::silence::{tell_next, tell_no_null};
use crate::task::Writing;
use bac_asking::{Client, ask_on, outcome_of};
use bac_driver::{AskEnd, Question};
use bac_environment::ClientSockets;
use bac_point_report::{
    Target, failure_lines, is_done, kind_in, kind_named, shown, value_line, values_of,
    written_values,
};
use bac_point_text::{Kind, WrittenFault, enumeration_of, names_advice};
use bac_service::{AnyRequest, Priority, PropertyReference, WriteProperty};
use bac_text::{Status, no_memory, output_failed};
use bac_value::Data;
use bac_value_text::{number_up_to, property_name, property_number};
use std::alloc::{AllocError, Global};
use std::io::{ErrorKind, Write};
use std::{io, slice};

/// A property that is to get a value.
#[derive(Drop)]
pub(crate) struct Order<'a> {
    /// The text of the value.
    pub text: &'a str,
    /// The priority, if one is given.
    pub priority: Option<Priority>,
    /// The name of the value's kind, if one is given.
    pub kind: Option<&'a str>,
    /// The question that reads the property.
    pub reading: Question,
    /// The property.
    pub reference: PropertyReference,
}

/// What is printed where a property got the value.
const WRITTEN: &[u8] = b"written\n";

/// What is printed where it has another value now; the line of that stands behind.
const DIFFERS: &[u8] = b"written, but now ";

/// What the words have to be.
const FORM: &str = "expected OBJECT [PROPERTY] VALUE";

/// The same, where there are more words than those.
const SHORTER_FORM: &str =
    "expected OBJECT [PROPERTY] VALUE; a text with blanks needs quotes, and a priority is --priority N";

/// A Null, encoded (clause 20.2.2).
const NULL: [u8; 1] = [0];

/// The property that is written, and the text of its new value. None if the words are not those.
fn ordered_in<'a>(words: &[&'a str]) -> Option<(Target<'a>, &'a str)>
    ensures { option_map (λ o. (target_view o.0, o.1.now)) result ≡ ordered_in (map (λ w. w.now) words.now) }
{
    match words {
        [object, text] => {
            let target = Target {
                object: *object,
                property: "present-value",
            };
            Some((target, *text))
        }
        [object, property, text] => {
            let target = Target {
                object: *object,
                property: *property,
            };
            Some((target, *text))
        }
        [] => None,
        [_] => None,
        [_, _, _, _, ..] => None,
    }
}

/// Whether the only word behind the object is the name of a property: its value is missing.
fn lacks_value(words: &[&str]) -> bool
    ensures { result ≡ lacks_value (map (λ w. w.now) words.now) }
{
    match words {
        [_, word] => property_number(*word).is_some(),
        [] => false,
        [_] => false,
        [_, _, _, ..] => false,
    }
}

/// What words have to be that are not OBJECT [PROPERTY] VALUE.
fn form_for(words: &[&str]) -> &'static str {
    if words.len() > 3 { SHORTER_FORM } else { FORM }
}

/// The name that the standard gives a property, where a word is its number. None of a name, and of a number without one.
fn name_of_number(word: &str) -> Option<&'static str>
    ensures { option_map (λ n. n.now) result ≡ name_of_number word.now }
{
    let number = number_up_to(u64::from(u32::MAX), word.as_bytes())?;
    property_name(number as u32)
}

/// Complains of a property that is given by its number and has a name: the number may be meant as a value.
fn print_numbered<E: Write>(word: &str, name: &str, err: &mut E) -> Status
    ensures { IsStop result }
{
    // if that fails too, only the status is left
    let _ = writeln!(
        err,
        "bad words: property {word} is {name}: write its name; a priority is --priority N"
    );
    Status::CommandLine
}

/// Complains of a property whose value is missing.
fn print_lacking<E: Write>(property: &str, err: &mut E) -> Status
    ensures { IsStop result }
{
    // if that fails too, only the status is left
    let _ = writeln!(
        err,
        "bad words: \"{property}\" is a property: a VALUE is missing"
    );
    Status::CommandLine
}

/// Complains of words that are bad.
fn print_bad<E: Write>(reason: &str, err: &mut E) -> Status
    ensures { IsStop result }
{
    // if that fails too, only the status is left
    let _ = writeln!(err, "bad words: {reason}");
    Status::CommandLine
}

/// What is told of an unknown name of a property: the name that is like it, or otherwise the names that there are.
fn name_advice(
    alloc: Global,
    reference: PropertyReference,
    nearest: Option<&str>,
) -> Result<Vec<u8>, AllocError> {
    if let Some(name) = nearest {
        let text = format!(in alloc; "did you mean {name}?")?;
        return Ok(text.into_bytes());
    }
    match enumeration_of(reference.object.kind, reference.property) {
        Some(names) => names_advice(alloc, names),
        None => Vec::from_slice(alloc, b"expected a number"),
    }
}

/// What is wanted of a number of a kind.
fn number_wanted(kind: Kind) -> &'static str {
    match kind {
        Kind::Real | Kind::Double => "a number, such as 21.5",
        _ => "a whole number",
    }
}

/// What a number of a kind is that is not finite: one in digits is too great for the kind.
fn not_finite(kind: Kind, text: &str) -> &'static str {
    if !text.as_bytes().iter().any(|octet| octet.is_ascii_digit()) {
        return "not a finite number";
    }
    match kind {
        Kind::Double => "beyond what a double holds (1.8e308)",
        _ => "beyond what a real holds (3.4e38)",
    }
}

/// Complains of a text that is no name of a value of the property, and tells which there are.
fn print_unknown<E: Write>(
    alloc: Global,
    order: &Order<'_>,
    fault: WrittenFault,
    nearest: Option<&str>,
    err: &mut E,
) -> Status
    ensures { IsStop result }
{
    let Ok(advice) = name_advice(alloc, order.reference, nearest) else {
        return no_memory(err);
    };
    let text = order.text;
    // if a write fails too, only the status is left
    let _ = write!(err, "bad words: \"{text}\" is {fault}; ");
    let _ = err.write_all(&advice);
    let _ = err.write_all(b"\n");
    Status::CommandLine
}

/// Complains of a text that is no value of the kind that is wanted.
fn print_bad_value<E: Write>(
    alloc: Global,
    order: &Order<'_>,
    kind: Kind,
    fault: WrittenFault,
    err: &mut E,
) -> Status
    ensures { IsStop result }
{
    let text = order.text;
    match fault {
        WrittenFault::NoMemory => no_memory(err),
        WrittenFault::UnknownName { nearest } => print_unknown(alloc, order, fault, nearest, err),
        WrittenFault::NoNumber => {
            let wanted = number_wanted(kind);
            // if that fails too, only the status is left
            let _ = writeln!(err, "bad words: \"{text}\" is not {wanted}");
            Status::CommandLine
        }
        WrittenFault::NotFinite => {
            let number = not_finite(kind, text);
            let _ = writeln!(err, "bad words: \"{text}\" is {number}");
            Status::CommandLine
        }
        _ => {
            let _ = writeln!(err, "bad words: \"{text}\" is {fault}");
            Status::CommandLine
        }
    }
}

/// What the words of a write order. Where they are no such words, `err` and the status say so.
fn order_of<'a, M: ClientSockets, E: Write>(
    desk: &Desk<'_, M>,
    writing: Writing<'_, 'a>,
    err: &mut E,
) -> Result<Order<'a>, Status>
    ensures read { IfOk result (λ o. IsOrder (peer_view desk.now.peer) writing.entry (order_view o)) }
    ensures told { IfErr result IsStop }
{
    let Some((target, text)) = ordered_in(writing.words) else {
        return Err(print_bad(form_for(writing.words), err));
    };
    if lacks_value(writing.words) {
        return Err(print_lacking(text, err));
    }
    if let Some(name) = name_of_number(target.property) {
        return Err(print_numbered(target.property, name, err));
    }
    let words = ["read", target.object, target.property];
    let reading = question_by(desk.alloc, desk.peer, &words, err)?;
    match reading.request.as_request().property() {
        Some(reference) => Ok(Order {
            text,
            priority: writing.priority,
            kind: writing.kind,
            reading,
            reference,
        }),
        None => Err(print_bad(FORM, err)),
    }
}

/// Tells why an ask for a property did not succeed.
fn tell_failure<M: ClientSockets, E: Write>(
    desk: &Desk<'_, M>,
    reference: PropertyReference,
    end: &AskEnd,
    err: &mut E,
) -> Result<(), Status>
    ensures { IfErr result IsFailure }
{
    if desk.tell_if_silent(slice::from_ref(end), err) {
        return Ok(());
    }
    let Ok(line) = failure_lines(desk.alloc, reference, outcome_of(end)) else {
        return Err(no_memory(err));
    };
    // if that fails too, only the status is left
    let _ = err.write_all(&line);
    tell_next(slice::from_ref(end), err);
    Ok(())
}

// ---- the kind of the new value

/// The kind of the value with which a read of a property was answered. None where no value came: `err` says why. Where the value has none of its own, `err` and
/// the status say so.
fn kind_answered<M: ClientSockets, E: Write>(
    desk: &Desk<'_, M>,
    reference: PropertyReference,
    end: &AskEnd,
    err: &mut E,
) -> Result<Option<Kind>, Status>
    ensures kind { IfOk result (λ kind. IsKindOf (values_of (ReadProperty (property_reference_view reference)) (outcome_of end.now)) kind) }
    ensures told { IfErr result IsStop }
{
    let request = AnyRequest::ReadProperty(reference);
    let Some(values) = values_of(request, outcome_of(end)) else {
        tell_failure(desk, reference, end, err)?;
        return Ok(None);
    };
    match kind_in(desk.alloc, values) {
        Ok(Some(kind)) => Ok(Some(kind)),
        Ok(None) => Err(print_bad(
            "the property has no single value to take the kind from: give --kind",
            err,
        )),
        Err(_) => Err(no_memory(err)),
    }
}

/// The kind of the value that a property has, as `kind_answered` does.
fn kind_asked<M: ClientSockets, E: Write>(
    desk: &Desk<'_, M>,
    client: &mut Client<'_, M>,
    order: &Order<'_>,
    err: &mut E,
) -> Result<Option<Kind>, Status>
    ensures asked { IfOk result (λ kind. AsksKind (OnPort M.is_bound M.Link.failures M.Link.calls) desk.now.asking.now (order_view order.now) kind
        (timed client.old.station.bound_node (M.Timer.told client.old.station.clock))
        (timed client.new.station.bound_node (M.Timer.told client.new.station.clock))) }
    ensures told { IfErr result IsStop }
{
    let end = ask_on(desk.asking, client, &order.reading, err)?;
    kind_answered(desk, order.reference, &end, err)
}

/// The kind that the new value has: that of the given name, or that of the value that the property has. None where it did not come.
fn kind_of<M: ClientSockets, E: Write>(
    desk: &Desk<'_, M>,
    client: &mut Client<'_, M>,
    order: &Order<'_>,
    err: &mut E,
) -> Result<Option<Kind>, Status>
    ensures found { IfOk result (λ kind. FindsKind (OnPort M.is_bound M.Link.failures M.Link.calls) desk.now.asking.now (order_view order.now) kind
        (timed client.old.station.bound_node (M.Timer.told client.old.station.clock))
        (timed client.new.station.bound_node (M.Timer.told client.new.station.clock))) }
    ensures told { IfErr result IsStop }
{
    match order.kind {
        Some(name) => Ok(kind_named(name)),
        None => kind_asked(desk, client, order, err),
    }
}

// ---- what is printed

/// Whether those octets are the values that a question writes.
fn writes_values(question: &Question, octets: &[u8]) -> bool
    ensures { result ≡ writes_values (question_view question.now).request octets.now }
{
    match question.request.as_request() {
        AnyRequest::WriteProperty(write) => write.values.octets == octets,
        AnyRequest::ReadProperty(_) => false,
        AnyRequest::ReadFile(_) => false,
        AnyRequest::WriteFile(_) => false,
    }
}

/// The line of another value that reads back.
fn differs_line(alloc: Global, value: &[u8]) -> Result<Vec<u8>, AllocError>
    ensures { IfOk result (λ t. t.items ≡ differs_line value.now) }
{
    let line = value_line(alloc, None, value)?;
    let mut text = Vec::from_slice(alloc, DIFFERS)?;
    text.extend_from_slice(&line)?;
    Ok(text)
}

/// Prints a line.
fn print_line<O: Write>(line: &[u8], out: &mut O) -> io::Result<()>
    ensures { OnOk result (Appends (O.contents out.old) (O.contents out.new) line.now) }
{
    out.write_all(line)?;
    out.flush()
}

/// Prints that a property was written, which has another value now.
fn print_other<O: Write>(
    alloc: Global,
    reference: PropertyReference,
    values: Data<'_>,
    out: &mut O,
) -> io::Result<()>
    ensures { OnOk result (PrintsOther (property_reference_view reference) values.entry.octets.now (O.contents out.old) (O.contents out.new)) }
{
    let Ok(value) = shown(alloc, reference, values) else {
        return Err(io::Error::from(ErrorKind::OutOfMemory));
    };
    let line = differs_line(alloc, &value)?;
    print_line(&line, out)
}

/// Prints that a property was written, and what it has now if that is something else.
fn print_found<O: Write>(
    alloc: Global,
    reference: PropertyReference,
    question: &Question,
    values: Data<'_>,
    out: &mut O,
) -> io::Result<()>
    ensures { OnOk result (PrintsFound (writes_values (question_view question.now).request values.entry.octets.now) (property_reference_view reference)
        values.entry.octets.now (O.contents out.old) (O.contents out.new)) }
{
    if writes_values(question, values.octets) {
        print_line(WRITTEN, out)
    } else {
        print_other(alloc, reference, values, out)
    }
}

/// Prints that a property was written, which could not be read back: `err` says why.
fn print_unread<O: Write, E: Write>(
    alloc: Global,
    reference: PropertyReference,
    end: &AskEnd,
    out: &mut O,
    err: &mut E,
) -> io::Result<()>
    ensures { OnOk result (Appends (O.contents out.old) (O.contents out.new) (codes "written\n")) }
{
    print_line(WRITTEN, out)?;
    // if that fails too, only the status is left
    let _ = err.write_all(&failure_lines(alloc, reference, outcome_of(end))?);
    Ok(())
}

/// Prints that a property was written, and what came of reading it back if that is something else.
fn print_back<O: Write, E: Write>(
    alloc: Global,
    reference: PropertyReference,
    question: &Question,
    end: &AskEnd,
    out: &mut O,
    err: &mut E,
) -> io::Result<()>
    ensures { OnOk result (PrintsBack (question_view question.now).request (property_reference_view reference)
        (values_of (ReadProperty (property_reference_view reference)) (outcome_of end.now)) (O.contents out.old) (O.contents out.new)) }
{
    let request = AnyRequest::ReadProperty(reference);
    match values_of(request, outcome_of(end)) {
        Some(values) => print_found(alloc, reference, question, values, out),
        None => print_unread(alloc, reference, end, out, err),
    }
}

// ---- the write

/// The question that writes the value. Where the text is none of that kind, `err` and the status say so.
fn writing_question<M: ClientSockets, E: Write>(
    desk: &Desk<'_, M>,
    order: &Order<'_>,
    kind: Kind,
    err: &mut E,
) -> Result<Question, Status>
    ensures written { IfOk result (λ q. IsWriting (peer_view desk.now.peer) (order_view order.now) kind (question_view q)) }
    ensures told { IfErr result IsStop }
{
    let reference = order.reference;
    match written_values(desk.alloc, reference, kind, order.text) {
        Ok(values) => {
            let write = WriteProperty {
                reference,
                values,
                priority: order.priority,
            };
            Ok(question_for(desk.peer, AnyRequest::WriteProperty(write)))
        }
        Err(fault) => Err(print_bad_value(desk.alloc, order, kind, fault, err)),
    }
}

/// Complains that standard output cannot be written, and tells that the property was, unless the reader of a pipe has ended.
fn unprinted<E: Write>(error: &io::Error, err: &mut E) -> Status
    ensures { IsFailure result }
{
    let status = output_failed(err, error);
    if !matches!(error.kind(), ErrorKind::BrokenPipe) {
        // if that fails too, only the status is left
        let _ = err.writeln("the value was written");
    }
    status
}

/// Reads a property back that was written, and prints what it has now if that is something else.
fn read_back<M: ClientSockets, O: Write, E: Write>(
    desk: &Desk<'_, M>,
    client: &mut Client<'_, M>,
    order: &Order<'_>,
    question: &Question,
    out: &mut O,
    err: &mut E,
) -> Result<(), Status>
    ensures read { OnOk result (ReadsBack (OnPort M.is_bound M.Link.failures M.Link.calls) desk.now.asking.now (order_view order.now) (question_view question.now).request
        (timed client.old.station.bound_node (M.Timer.told client.old.station.clock))
        (timed client.new.station.bound_node (M.Timer.told client.new.station.clock))
        (O.contents out.old) (O.contents out.new)) }
    ensures failed { IfErr result IsFailure }
{
    let end = ask_on(desk.asking, client, &order.reading, err)?;
    match print_back(desk.alloc, order.reference, question, &end, out, err) {
        Ok(()) => Ok(()),
        Err(error) => Err(unprinted(&error, err)),
    }
}

/// Tells why a property took no null, where that was written.
fn tell_null<E: Write>(question: &Question, end: &AskEnd, err: &mut E) {
    if writes_values(question, &NULL) {
        tell_no_null(end, err);
    }
}

/// Asks a write, and reads the property back where it was performed. Answers whether it was.
fn write_once<M: ClientSockets, O: Write, E: Write>(
    desk: &Desk<'_, M>,
    client: &mut Client<'_, M>,
    order: &Order<'_>,
    question: &Question,
    out: &mut O,
    err: &mut E,
) -> Result<bool, Status>
    ensures written { IfOk result (λ done. WritesOnce (OnPort M.is_bound M.Link.failures M.Link.calls) desk.now.asking.now (order_view order.now)
        (question_view question.now) done
        (timed client.old.station.bound_node (M.Timer.told client.old.station.clock))
        (timed client.new.station.bound_node (M.Timer.told client.new.station.clock))
        (O.contents out.old) (O.contents out.new)) }
    ensures failed { IfErr result IsFailure }
{
    let end = ask_on(desk.asking, client, question, err)?;
    if !is_done(outcome_of(&end)) {
        tell_failure(desk, order.reference, &end, err)?;
        tell_null(question, &end, err);
        return Ok(false);
    }
    drop(end);
    read_back(desk, client, order, question, out, err)?;
    Ok(true)
}

/// Writes the value as one of that kind, if there is one. Answers whether it was written.
fn write_as<M: ClientSockets, O: Write, E: Write>(
    desk: &Desk<'_, M>,
    client: &mut Client<'_, M>,
    order: &Order<'_>,
    kind: Option<Kind>,
    out: &mut O,
    err: &mut E,
) -> Result<bool, Status>
    ensures written { IfOk result (λ done. WritesAs (OnPort M.is_bound M.Link.failures M.Link.calls) desk.now.asking.now (peer_view desk.now.peer) (order_view order.now)
        kind done
        (timed client.old.station.bound_node (M.Timer.told client.old.station.clock))
        (timed client.new.station.bound_node (M.Timer.told client.new.station.clock))
        (O.contents out.old) (O.contents out.new)) }
    ensures told { IfErr result IsStop }
{
    let Some(kind) = kind else {
        return Ok(false);
    };
    let question = writing_question(desk, order, kind, err)?;
    write_once(desk, client, order, &question, out, err)
}

/// Finds the kind of the new value, and writes it. Answers whether it was written.
fn write_order<M: ClientSockets, O: Write, E: Write>(
    desk: &Desk<'_, M>,
    client: &mut Client<'_, M>,
    order: &Order<'_>,
    out: &mut O,
    err: &mut E,
) -> Result<bool, Status>
    ensures written { IfOk result (λ done. WritesOrder (OnPort M.is_bound M.Link.failures M.Link.calls) desk.now.asking.now (peer_view desk.now.peer)
        (order_view order.now) done
        (timed client.old.station.bound_node (M.Timer.told client.old.station.clock))
        (timed client.new.station.bound_node (M.Timer.told client.new.station.clock))
        (O.contents out.old) (O.contents out.new)) }
    ensures told { IfErr result IsStop }
{
    let kind = kind_of(desk, client, order, err)?;
    write_as(desk, client, order, kind, out, err)
}

/// A new client does so.
fn write_by_client<M: ClientSockets, O: Write, E: Write>(
    desk: &Desk<'_, M>,
    order: &Order<'_>,
    out: &mut O,
    err: &mut E,
) -> Result<bool, Status>
    ensures written { IfOk result (λ done. WritesByClient (OnPort M.is_bound M.Link.failures M.Link.calls) (OnClock M.is_made M.Timer.told) desk.now.asking.now
        (peer_view desk.now.peer) (order_view order.now) done (O.contents out.old) (O.contents out.new)) }
    ensures told { IfErr result IsStop }
{
    let mut client = desk.client(err)?;
    let written = write_order(desk, &mut client, order, out, err);
    drop(client);
    written
}

/// Writes a property, and reads it back. Answers whether it was written.
#[tactic(auto, using(crate::proofs::Hearing::unasked))]
pub(crate) fn write<M: ClientSockets, O: Write, E: Write>(
    desk: &Desk<'_, M>,
    writing: Writing<'_, '_>,
    out: &mut O,
    err: &mut E,
) -> Result<bool, Status>
    ensures written { IfOk result (λ done. WritesIfHeard desk.now.is_unheard (OnPort M.is_bound M.Link.failures M.Link.calls) (OnClock M.is_made M.Timer.told)
        desk.now.asking.now (peer_view desk.now.peer) writing.entry done (O.contents out.old) (O.contents out.new)) }
    ensures told { IfErr result IsStop }
{
    let order = order_of(desk, writing, err)?;
    if desk.tells_unheard(err) {
        return Ok(false);
    }
    write_by_client(desk, &order, out, err)
}
