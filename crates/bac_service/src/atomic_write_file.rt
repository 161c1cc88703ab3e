//! AtomicWriteFile (clause 14.2).
ghost use Rattle.std.specs.Prelude.{◌≡◌, ◌+◌, ◌++◌, ◌<◌, ◌≤◌, ◌^◌, IfOk, OnOk, OnErr, length, vec_len, vec_capacity};
ghost use Rattle.bac_value.specs.Steps.{Reads};
ghost use Rattle.bac_value.specs.Views.{object_identifier_view};
ghost use Rattle.bac_service.specs.AtomicWriteFile.{IsWriteFile, IsWritten, counted_at, file_written_at, file_written_view, records_spelling};
ghost use Rattle.bac_service.specs.AtomicWriteFile.{write_access_at, write_access_length, write_access_view, write_file_at, write_file_length};
ghost use Rattle.bac_service.specs.AtomicWriteFile.{write_file_spelling, write_file_view};
ghost use Rattle.bac_service.specs.Files.{IsExtent};
ghost use Rattle.bac_service.specs.Values.{members_asked, request_name};
ghost use Rattle.bac_service.specs.MemberViews.{members_view};
ghost use Rattle.bac_service.specs.Values.{appends_octets, write_start};
ghost use Rattle.bac_service.specs.Reading.{enclosed_at};
ghost use Rattle.bac_service.specs.Runs.{AreStrings};
ghost use Rattle.bac_service.specs.Sights.{left, lent, owned};
ghost use Rattle.bac_service.specs.Values.{for_file};
ghost use Rattle.bac_service.specs.Values.WriteAccess.{WriteRecords as PlainWriteRecords};
ghost use Rattle.bac_service.specs.Writing.{Writes};

use crate::file::{
    Content, content_len, extent_len, put_content, put_extent, string_copy, take_content,
};
use crate::member::{Member, Members};
use crate::member_len::{OBJECT_LEN, PAIR_LEN};
use crate::member_reading::{object, signed, unsigned};
use crate::member_writing::{put_closing, put_opening};
use crate::owned_records::OwnedRecords;
use crate::records::{Records, Run, take_run};
use crate::stop::{Stop, Why};
use crate::tag_reading::{closing, comes_next, opening, opens_next};
use bac_value::{
    Class, NoMemory, ObjectIdentifier, OctetString, Octets, copy_of, kinds, write_object_identifier,
};
use std::alloc::Global;

/// Octets for a file, from a position on; position -1 appends.
#[derive(Clone, Copy, Debug, Drop)]
pub struct WriteStream<C> {
    /// The position of the first octet, or -1 for the end of the file.
    pub start: i64,
    /// The octets.
    pub content: C,
}

/// Records for a file, from a record on; record -1 appends.
#[derive(Clone, Copy, Debug, Drop)]
pub struct WriteRecords<R> {
    /// The number of the first record, or -1 for the end of the file.
    pub start: i64,
    /// The records.
    pub records: R,
}

/// What is written, and to which part of a file (clause 14.2).
#[derive(Clone, Copy, Debug, Drop)]
pub enum WriteAccess<C, R> {
    Stream(WriteStream<C>),
    Records(WriteRecords<R>),
}

/// A request to write to a file (clause 14.2).
#[derive(Clone, Copy, Debug, Drop)]
pub struct WriteFile<C, R> {
    /// The file.
    pub file: ObjectIdentifier,
    /// What is written, and where.
    pub access: WriteAccess<C, R>,
}

/// Where the file was written (clause 14.2): a position in octets, or the number of a record.
#[derive(Clone, Copy, Debug, PartialEq, Eq)]
pub enum FileWritten {
    Stream(i64),
    Records(i64),
}

impl<'a> WriteAccess<Content<'a>, Records<'a>> {
    /// The position, or the record, from which on the file is written.
    pub(crate) fn start(self) -> i64
        ensures { result ≡ write_start (write_access_view lent self.entry) }
    {
        match self {
            WriteAccess::Stream(stream) => stream.start,
            WriteAccess::Records(records) => records.start,
        }
    }

    /// The octets, or the records with their tags.
    pub(crate) fn octets(self) -> &'a [u8]
        ensures { result.now ≡ for_file (write_access_view lent self.entry) }
    {
        match self {
            WriteAccess::Stream(stream) => stream.content.octets,
            WriteAccess::Records(records) => records.records.run,
        }
    }

    /// Whether these are octets for the end of the file.
    pub(crate) fn appends_octets(self) -> bool
        ensures { result ≡ appends_octets (write_access_view lent self.entry) }
    {
        match self {
            WriteAccess::Stream(stream) => stream.start == -1,
            WriteAccess::Records(_) => false,
        }
    }
}

impl<'a> WriteFile<Content<'a>, Records<'a>> {
    pub(crate) fn name(self) -> &'static str
        ensures { result.now ≡ request_name (write_file_view lent self.entry) }
    {
        match self.access {
            WriteAccess::Stream(_) => "write-file",
            WriteAccess::Records(_) => "write-records",
        }
    }

    pub(crate) fn members(self) -> Members<'a>
        ensures { members_view result ≡ members_asked (write_file_view lent self.entry) }
    {
        let file = Member::Object(self.file);
        match self.access {
            WriteAccess::Stream(stream) => Members::three([
                file,
                Member::Position(stream.start),
                Member::Content(stream.content),
            ]),
            WriteAccess::Records(write) => Members::four([
                file,
                Member::Record(write.start),
                Member::Count(write.records.count),
                Member::Records(write.records),
            ]),
        }
    }
}

/// Reads records to write: the first record, their count, and as many octet strings between tags with number 1.
#[tactic(auto, unfolding(crate::specs::Reading::enclosed_at, crate::specs::AtomicWriteFile::counted_at))]
fn counted<O: Octets>(octets: O) -> Result<((i64, u64, u64, O), O), Stop>
    ensures { Reads (λ t. (t.0, (t.1, (t.2, O.octets t.3)))) O.octets (O.octets octets) result (enclosed_at 1 counted_at) }
{
    let rest = opening(octets, 1)?;
    let (start, rest) = signed(rest, Class::Application, kinds::SIGNED)?;
    let (count, rest) = unsigned(rest, Class::Application, kinds::UNSIGNED)?;
    let ((number, run), rest) = take_run(rest)?;
    let rest = closing(rest, 1)?;
    Ok(((start, count, number, run), rest))
}

#[tactic(auto, unfolding(crate::specs::AtomicWriteFile::write_access_at, crate::specs::Reading::that_at))]
fn write_access<O: Octets>(octets: O) -> Result<(WriteAccess<O, Run<O>>, O), Stop>
    ensures { Reads (write_access_view (left O.octets)) O.octets (O.octets octets) result write_access_at }
{
    if !opens_next(octets, 1)? {
        let ((start, content), rest) = take_content(octets)?;
        return Ok((WriteAccess::Stream(WriteStream { start, content }), rest));
    }
    let left = octets.len();
    let ((start, count, number, octets), rest) = counted(octets)?;
    if count == number {
        let records = Run { octets, count };
        Ok((WriteAccess::Records(WriteRecords { start, records }), rest))
    } else {
        Err(Stop::new(Why::Inconsistent, left))
    }
}

/// Reads the members of a request, and returns them and the octets after them.
pub(crate) fn take_write_file<O: Octets>(octets: O) -> Result<(WriteFile<O, Run<O>>, O), Stop>
    ensures { Reads (write_file_view (left O.octets)) O.octets (O.octets octets) result write_file_at }
{
    let (file, rest) = object(octets, Class::Application, kinds::OBJECT_IDENTIFIER)?;
    let (access, rest) = write_access(rest)?;
    Ok((WriteFile { file, access }, rest))
}

/// Reads the members of the service data, and returns them and the octets after them.
#[tactic(auto, unfolding(crate::specs::AtomicWriteFile::file_written_at))]
pub(crate) fn take_file_written<O: Octets>(octets: O) -> Result<(FileWritten, O), Stop>
    ensures { Reads file_written_view O.octets (O.octets octets) result file_written_at }
{
    if comes_next(octets, 1)? {
        let (start, rest) = signed(octets, Class::Context, 1)?;
        Ok((FileWritten::Records(start), rest))
    } else {
        let (start, rest) = signed(octets, Class::Context, 0)?;
        Ok((FileWritten::Stream(start), rest))
    }
}

/// Appends records to write: the first record, their count, and the octet strings between tags with number 1.
fn put_records(write: WriteRecords<Records<'_>>, out: &mut Vec<u8>) -> Result<(), NoMemory>
    ensures { Writes result out.old out.new (records_spelling write.entry.start write.entry.records.count write.entry.records.run.now) }
{
    put_opening(1, out)?;
    put_extent(write.start, write.records.count, out)?;
    out.extend_from_slice(write.records.run)?;
    put_closing(1, out)
}

/// Appends the members of a request.
pub(crate) fn put_write_file(
    write: WriteFile<Content<'_>, Records<'_>>,
    out: &mut Vec<u8>,
) -> Result<(), NoMemory>
    ensures { Writes result out.old out.new (write_file_spelling (object_identifier_view write.entry.file) (write_access_view lent write.entry.access)) }
{
    write_object_identifier(
        Class::Application,
        kinds::OBJECT_IDENTIFIER,
        write.file,
        out,
    )?;
    match write.access {
        WriteAccess::Stream(stream) => put_content(stream.start, stream.content, out),
        WriteAccess::Records(records) => put_records(records, out),
    }
}

fn records_len(write: WriteRecords<Records<'_>>) -> usize
    ensures len { result ≡ write_access_length (PlainWriteRecords write.entry.start write.entry.records.count write.entry.records.run.now) }
    ensures is { IsExtent write.entry.start write.entry.records.count }
    ensures strings { AreStrings write.entry.records.count write.entry.records.run.now }
    ensures fits { result + 5 < 2 ^ 64 }
{
    let run = Octets::len(write.records.run);
    extent_len(write.start, write.records.count) + run + PAIR_LEN
}

/// The length in octets of the members of a request.
pub(crate) fn write_file_len(write: WriteFile<Content<'_>, Records<'_>>) -> usize
    ensures len { result ≡ write_file_length (write_access_view lent write.entry.access) }
    ensures is { IsWriteFile (object_identifier_view write.entry.file) (write_access_view lent write.entry.access) }
{
    match write.access {
        WriteAccess::Stream(stream) => OBJECT_LEN + content_len(stream.start, stream.content),
        WriteAccess::Records(records) => OBJECT_LEN + records_len(records),
    }
}

/// Borrows what was read from a slice.
pub(crate) fn access_of<'a>(
    access: WriteAccess<&'a [u8], Run<&'a [u8]>>,
) -> WriteAccess<Content<'a>, Records<'a>>
    requires { IsWritten (write_access_view (left (λ s. s.now)) access) }
    ensures { write_access_view lent result ≡ write_access_view (left (λ s. s.now)) access.entry }
{
    match access {
        WriteAccess::Stream(write) => {
            let content = Content {
                octets: write.content,
            };
            let start = write.start;
            WriteAccess::Stream(WriteStream { start, content })
        }
        WriteAccess::Records(write) => {
            let records = Records {
                run: write.records.octets,
                count: write.records.count,
            };
            let start = write.start;
            WriteAccess::Records(WriteRecords { start, records })
        }
    }
}

/// Borrows an owned value.
pub(crate) fn lent_access(
    access: &WriteAccess<OctetString, OwnedRecords>,
) -> WriteAccess<Content<'_>, Records<'_>>
    ensures { write_access_view lent result ≡ write_access_view owned access.now }
{
    match access {
        WriteAccess::Stream(write) => {
            let content = Content {
                octets: write.content.octets.as_slice(),
            };
            let start = write.start;
            WriteAccess::Stream(WriteStream { start, content })
        }
        WriteAccess::Records(write) => {
            let records = Records {
                run: write.records.run.as_slice(),
                count: write.records.count,
            };
            let start = write.start;
            WriteAccess::Records(WriteRecords { start, records })
        }
    }
}

/// Copies an owned value.
pub(crate) fn access_copy<O: Octets>(
    alloc: Global,
    access: WriteAccess<O, Run<O>>,
) -> Result<WriteAccess<OctetString, OwnedRecords>, NoMemory>
    requires { IsWritten (write_access_view (left O.octets) access) }
    ensures same { IfOk result (λ a. write_access_view owned a ≡ write_access_view (left O.octets) access) }
    ensures full { OnErr result (0 < length (for_file (write_access_view (left O.octets) access))) }
{
    match access {
        WriteAccess::Stream(write) => {
            let content = string_copy(alloc, write.content)?;
            let start = write.start;
            Ok(WriteAccess::Stream(WriteStream { start, content }))
        }
        WriteAccess::Records(write) => {
            let start = write.start;
            let found = write.records;
            let count = found.count;
            let run = copy_of(alloc, found.octets)?;
            let records = OwnedRecords { run, count };
            Ok(WriteAccess::Records(WriteRecords { start, records }))
        }
    }
}

/// Copies a borrowed value to an owned one.
pub(crate) fn access_to_owned(
    alloc: Global,
    access: WriteAccess<Content<'_>, Records<'_>>,
) -> Result<WriteAccess<OctetString, OwnedRecords>, NoMemory>
    ensures same { IfOk result (λ a. write_access_view owned a ≡ write_access_view lent access.entry) }
    ensures full { OnErr result (0 < length (for_file (write_access_view lent access.entry))) }
{
    match access {
        WriteAccess::Stream(write) => {
            let content = string_copy(alloc, write.content.octets)?;
            let start = write.start;
            Ok(WriteAccess::Stream(WriteStream { start, content }))
        }
        WriteAccess::Records(write) => {
            let count = write.records.count;
            let run = copy_of(alloc, write.records.run)?;
            let records = OwnedRecords { run, count };
            let start = write.start;
            Ok(WriteAccess::Records(WriteRecords { start, records }))
        }
    }
}
