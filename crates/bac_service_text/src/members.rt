//! Members of decoded lines: a name and a value, as ` name=value`.
ghost use Rattle.std.specs.Prelude.{◌≡◌, ◌++◌, codes, OnOk, true};
ghost use Rattle.bac_value.specs.Views.{object_identifier_view};
ghost use Rattle.std.specs.Io.KnownBytes.{Appends};
ghost use Rattle.bac_service.specs.MemberViews.{member_view, members_view};
ghost use Rattle.bac_service.specs.Views.{priority_view};
ghost use Rattle.bac_service_text.specs.Members.{AppendsLine, AppendsText, AreMembers, IsListed, IsMember, IsNamed, IsRecordsMember, IsValuesMember};
ghost use Rattle.bac_service_text.specs.Members.{bit_text, count_member, number_text, object_member, octets_text, optional, position_member};
ghost use Rattle.bac_service_text.specs.Members.{property_member, record_member};

use crate::strings::print_strings;
use bac_service::{Member, Members, Priority, Records};
use bac_value::{Data, ObjectIdentifier};
use bac_value_text::{data_text, object_text, property_text};
use std::alloc::Global;
use std::io;
use std::io::{ErrorKind, Write};

/// Prints octets in hexadecimal, in capitals, after a name: ` name=0A1B`.
fn print_octets<W: Write>(alloc: Global, name: &str, octets: &[u8], out: &mut W) -> io::Result<()>
    ensures { OnOk result (Appends (W.contents out.old) (W.contents out.new) (octets_text name.now octets.now)) }
{
    let text = hex::encode_upper(alloc, octets)?;
    write!(out, " {name}={text}")
}

/// A word that is left out where there is no number.
fn print_optional<W: Write>(name: &str, number: Option<u32>, out: &mut W) -> io::Result<()>
    ensures { OnOk result (Appends (W.contents out.old) (W.contents out.new) (optional (number_text name.now) number)) }
{
    match number {
        None => Ok(()),
        Some(number) => write!(out, " {name}={number}"),
    }
}

/// An object, by its type and its instance: by number, or in words.
fn print_object<W: Write>(
    alloc: Global,
    in_words: bool,
    object: ObjectIdentifier,
    out: &mut W,
) -> io::Result<()>
    ensures { OnOk result (Appends (W.contents out.old) (W.contents out.new) (object_member in_words (object_identifier_view object))) }
{
    if in_words {
        let name = object_text(alloc, object)?;
        out.write_all(b" object=")?;
        return out.write_all(name.as_slice());
    }
    let kind = object.kind;
    let instance = object.instance;
    write!(out, " object={kind}:{instance}")
}

/// A property, by number or in words.
fn print_property<W: Write>(
    alloc: Global,
    in_words: bool,
    property: u32,
    out: &mut W,
) -> io::Result<()>
    ensures { OnOk result (Appends (W.contents out.old) (W.contents out.new) (property_member in_words property)) }
{
    if !in_words {
        return write!(out, " property={property}");
    }
    let name = property_text(alloc, property)?;
    write!(out, " property={name}")
}

/// Values, each by its kind.
fn print_values_by_kind<W: Write>(alloc: Global, values: Data<'_>, out: &mut W) -> io::Result<()>
    ensures { OnOk result (AppendsText (W.contents out.old) (W.contents out.new) (IsValuesMember true values.entry.octets.now)) }
{
    let Ok(text) = data_text(alloc, values) else {
        return Err(io::Error::from(ErrorKind::OutOfMemory));
    };
    out.write_all(b" values=")?;
    out.write_all(text.as_slice())
}

/// Values, in hexadecimal or in words.
fn print_values<W: Write>(
    alloc: Global,
    in_words: bool,
    values: Data<'_>,
    out: &mut W,
) -> io::Result<()>
    ensures { OnOk result (AppendsText (W.contents out.old) (W.contents out.new) (IsValuesMember in_words values.entry.octets.now)) }
{
    if in_words {
        print_values_by_kind(alloc, values, out)
    } else {
        print_octets(alloc, "values", values.octets, out)
    }
}

/// The number of a priority.
fn number_of(priority: Option<Priority>) -> Option<u32>
    ensures { result ≡ priority_view priority }
{
    match priority {
        None => None,
        Some(priority) => Some(u32::from(priority.number)),
    }
}

/// Whether octets reach the end of a file.
fn print_end<W: Write>(is_end: bool, out: &mut W) -> io::Result<()>
    ensures { OnOk result (Appends (W.contents out.old) (W.contents out.new) (codes " end=" ++ bit_text is_end)) }
{
    let end = u8::from(is_end);
    write!(out, " end={end}")
}

fn print_position<W: Write>(position: i64, out: &mut W) -> io::Result<()>
    ensures { OnOk result (Appends (W.contents out.old) (W.contents out.new) (position_member position)) }
{
    write!(out, " position={position}")
}

fn print_record<W: Write>(first: i64, out: &mut W) -> io::Result<()>
    ensures { OnOk result (Appends (W.contents out.old) (W.contents out.new) (record_member first)) }
{
    write!(out, " record={first}")
}

fn print_count<W: Write>(count: u64, out: &mut W) -> io::Result<()>
    ensures { OnOk result (Appends (W.contents out.old) (W.contents out.new) (count_member count)) }
{
    write!(out, " count={count}")
}

fn print_priority<W: Write>(priority: Option<Priority>, out: &mut W) -> io::Result<()>
    ensures { OnOk result (Appends (W.contents out.old) (W.contents out.new) (optional (number_text (codes "priority")) (priority_view priority))) }
{
    print_optional("priority", number_of(priority), out)
}

fn print_records<W: Write>(alloc: Global, records: Records<'_>, out: &mut W) -> io::Result<()>
    ensures { OnOk result (AppendsText (W.contents out.old) (W.contents out.new) (IsRecordsMember records.entry.run.now)) }
{
    print_strings(alloc, records.run, out)
}

fn print_member<W: Write>(
    alloc: Global,
    in_words: bool,
    member: Member<'_>,
    out: &mut W,
) -> io::Result<()>
    ensures { OnOk result (AppendsText (W.contents out.old) (W.contents out.new) (IsMember in_words (member_view member.entry))) }
{
    match member {
        Member::EndOfFile(is_end) => print_end(is_end, out),
        Member::Object(object) => print_object(alloc, in_words, object, out),
        Member::Property(property) => print_property(alloc, in_words, property, out),
        Member::Index(index) => print_optional("index", index, out),
        Member::Position(position) => print_position(position, out),
        Member::Record(first) => print_record(first, out),
        Member::Count(count) => print_count(count, out),
        Member::Content(content) => print_octets(alloc, "octets", content.octets, out),
        Member::Records(records) => print_records(alloc, records, out),
        Member::Values(values) => print_values(alloc, in_words, values, out),
        Member::Priority(priority) => print_priority(priority, out),
    }
}

fn print_listed<W: Write>(
    alloc: Global,
    in_words: bool,
    listed: Option<Member<'_>>,
    out: &mut W,
) -> io::Result<()>
    ensures { OnOk result (AppendsText (W.contents out.old) (W.contents out.new) (IsListed in_words listed.entry)) }
{
    match listed {
        None => Ok(()),
        Some(member) => print_member(alloc, in_words, member, out),
    }
}

fn print_members<W: Write>(
    alloc: Global,
    in_words: bool,
    members: &Members<'_>,
    out: &mut W,
) -> io::Result<()>
    ensures { OnOk result (AppendsText (W.contents out.old) (W.contents out.new) (AreMembers in_words (members_view members.now))) }
{
    let mut rest: &[Option<Member<'_>>] = &members.all;
    while let [listed, more @ ..] = rest {
        print_listed(alloc, in_words, *listed, out)?;
        rest = more;
    }
    Ok(())
}

/// A line: a name, and each member as ` name=value`.
pub(crate) fn print_line<W: Write>(
    alloc: Global,
    in_words: bool,
    name: &str,
    members: &Members<'_>,
    out: &mut W,
) -> io::Result<()>
    ensures { OnOk result (AppendsLine (W.contents out.old) (W.contents out.new) (IsNamed in_words name.now (members_view members.now))) }
{
    out.write_all(name.as_bytes())?;
    print_members(alloc, in_words, members, out)?;
    out.write_all(b"\n")
}
