//! AtomicReadFile (clause 14.1).
ghost use Rattle.std.specs.Prelude.{◌≡◌, ◌+◌, ◌++◌, ◌<◌, ◌≤◌, ◌^◌, OnOk, OnErr, length, vec_len, vec_capacity};
ghost use Rattle.bac_value.specs.Steps.{Reads};
ghost use Rattle.bac_value.specs.Views.{object_identifier_view};
ghost use Rattle.bac_service.specs.AtomicReadFile.{IsFileRead, IsReadFile, file_read_at, file_read_length, file_read_spelling};
ghost use Rattle.bac_service.specs.AtomicReadFile.{file_read_view, read_access_view, read_file_at, read_file_length, read_file_spelling};
ghost use Rattle.bac_service.specs.AtomicReadFile.{read_file_view};
ghost use Rattle.bac_service.specs.Files.{extent_spelling};
ghost use Rattle.bac_service.specs.Members.{enclosed_spelling};
ghost use Rattle.bac_service.specs.Values.{members_asked, request_name};
ghost use Rattle.bac_service.specs.MemberViews.{members_view};
ghost use Rattle.bac_service.specs.Values.{read_start};
ghost use Rattle.bac_service.specs.Writing.{Writes};

use crate::file::{
    Content, content_len, extent_len, put_content, put_extent, take_content, take_extent,
};
use crate::member::{Member, Members};
use crate::member_len::{OBJECT_LEN, PAIR_LEN};
use crate::member_reading::object;
use crate::member_writing::{put_closing, put_opening};
use crate::stop::{Stop, Why};
use crate::tag_reading::{opens_next, tag};
use bac_value::{
    Class, Form, NoMemory, ObjectIdentifier, Octets, kinds, write_boolean, write_object_identifier,
};

/// Which part of a file is read (clause 14.1): a count of octets from a position on, or of records from a record on.
#[derive(Clone, Copy, Debug, PartialEq, Eq)]
pub enum ReadAccess {
    Stream { start: i64, count: u64 },
    Records { start: i64, count: u64 },
}

/// A request to read a file (clause 14.1).
#[derive(Clone, Copy, Debug, PartialEq, Eq)]
pub struct ReadFile {
    /// The file.
    pub file: ObjectIdentifier,
    /// Which part of it.
    pub access: ReadAccess,
}

/// Octets that were read from a file (clause 14.1).
#[derive(Clone, Copy, Debug, Drop)]
pub struct FileRead<C> {
    /// Whether these octets reach the end of the file.
    pub end_of_file: bool,
    /// The position of the first octet.
    pub start: i64,
    /// The octets.
    pub content: C,
}

impl ReadAccess {
    /// The position, or the record, from which on the file is read.
    pub(crate) fn start(self) -> i64
        ensures { result ≡ read_start (read_access_view self) }
    {
        match self {
            ReadAccess::Stream { start, .. } => start,
            ReadAccess::Records { start, .. } => start,
        }
    }
}

impl ReadFile {
    pub(crate) fn name(self) -> &'static str
        ensures { result.now ≡ request_name (read_file_view self) }
    {
        match self.access {
            ReadAccess::Stream { .. } => "read-file",
            ReadAccess::Records { .. } => "read-records",
        }
    }

    pub(crate) fn members(self) -> Members<'static>
        ensures { members_view result ≡ members_asked (read_file_view self) }
    {
        let file = Member::Object(self.file);
        match self.access {
            ReadAccess::Stream { start, count } => {
                Members::three([file, Member::Position(start), Member::Count(count)])
            }
            ReadAccess::Records { start, count } => {
                Members::three([file, Member::Record(start), Member::Count(count)])
            }
        }
    }
}

/// Reads the members of a request, and returns them and the octets after them.
#[tactic(auto, unfolding(crate::specs::AtomicReadFile::read_access_at))]
pub(crate) fn take_read_file<O: Octets>(octets: O) -> Result<(ReadFile, O), Stop>
    ensures { Reads read_file_view O.octets (O.octets octets) result read_file_at }
{
    let (file, rest) = object(octets, Class::Application, kinds::OBJECT_IDENTIFIER)?;
    if opens_next(rest, 1)? {
        let ((start, count), rest) = take_extent(rest, 1)?;
        let access = ReadAccess::Records { start, count };
        Ok((ReadFile { file, access }, rest))
    } else {
        let ((start, count), rest) = take_extent(rest, 0)?;
        let access = ReadAccess::Stream { start, count };
        Ok((ReadFile { file, access }, rest))
    }
}

/// Reads the members of the service data, and returns them and the octets after them.
#[tactic(auto, unfolding(crate::specs::AtomicReadFile::end_of_file_at, crate::specs::AtomicReadFile::file_read_at))]
pub(crate) fn take_file_read<O: Octets>(octets: O) -> Result<(FileRead<O>, O), Stop>
    ensures { Reads (file_read_view O.octets) O.octets (O.octets octets) result file_read_at }
{
    let left = octets.len();
    let (tag, rest) = tag(octets)?;
    let Form::Boolean(end_of_file) = tag.form else {
        return Err(Stop::new(Why::Unexpected, left));
    };
    let ((start, content), rest) = take_content(rest)?;
    let read = FileRead {
        end_of_file,
        start,
        content,
    };
    Ok((read, rest))
}

/// Appends a start and a count between a pair of tags with this number.
fn put_enclosed_extent(
    number: u8,
    start: i64,
    count: u64,
    out: &mut Vec<u8>,
) -> Result<(), NoMemory>
    requires { number < 255 }
    ensures { Writes result out.old out.new (enclosed_spelling number (extent_spelling start count)) }
{
    put_opening(number, out)?;
    put_extent(start, count, out)?;
    put_closing(number, out)
}

/// Appends the members of a request.
pub(crate) fn put_read_file(read: ReadFile, out: &mut Vec<u8>) -> Result<(), NoMemory>
    ensures { Writes result out.old out.new (read_file_spelling (object_identifier_view read.file) (read_access_view read.access)) }
{
    write_object_identifier(Class::Application, kinds::OBJECT_IDENTIFIER, read.file, out)?;
    match read.access {
        ReadAccess::Stream { start, count } => put_enclosed_extent(0, start, count, out),
        ReadAccess::Records { start, count } => put_enclosed_extent(1, start, count, out),
    }
}

/// Appends the members of the service data.
pub(crate) fn put_file_read(read: FileRead<Content<'_>>, out: &mut Vec<u8>) -> Result<(), NoMemory>
    ensures { Writes result out.old out.new (file_read_spelling read.entry.end_of_file read.entry.start read.entry.content.octets.now) }
{
    write_boolean(read.end_of_file, out)?;
    put_content(read.start, read.content, out)
}

/// The length in octets of the members of a request.
pub(crate) fn read_file_len(read: ReadFile) -> usize
    ensures len { result ≡ read_file_length (read_access_view read.access) }
    ensures is { IsReadFile (object_identifier_view read.file) (read_access_view read.access) }
{
    let extent = match read.access {
        ReadAccess::Stream { start, count } => extent_len(start, count),
        ReadAccess::Records { start, count } => extent_len(start, count),
    };
    OBJECT_LEN + extent + PAIR_LEN
}

/// The length in octets of the members of the service data.
pub(crate) fn file_read_len(read: FileRead<Content<'_>>) -> usize
    ensures len { result ≡ file_read_length read.entry.start (length read.entry.content.octets.now) }
    ensures is { IsFileRead read.entry.start read.entry.content.octets.now }
{
    1 + content_len(read.start, read.content)
}
