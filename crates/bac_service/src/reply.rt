//! Replies of the four services, generic over what holds their octets.
ghost use Rattle.std.specs.Prelude.{◌≡◌, ◌+◌, ◌++◌, ◌<◌, ◌≤◌, ◌↔◌, true, IfOk, IfErr, OnOk, OnErr, length, vec_len, vec_capacity};
ghost use Rattle.bac_value.specs.Appending.{Appends, Keeps, NeedsRoom};
ghost use Rattle.bac_value.specs.Steps.{Reads};
ghost use Rattle.bac_value.specs.Views.{parts_view};
ghost use Rattle.bac_service.specs.Choices.{service_at};
ghost use Rattle.bac_service.specs.Refusals.{Gives, GivesInMemory, IfNoMemory, IfRefused};
ghost use Rattle.bac_service.specs.Replies.{IsComplex, IsMadeOf, IsNoComplex, IsReply, ReplyNeedsMemory, SpellsComplex, complex_at};
ghost use Rattle.bac_service.specs.Replies.{complex_length, complex_members, complex_over_view, complex_spelling, complex_view, held_by};
ghost use Rattle.bac_service.specs.Replies.{owned_complex_view, owned_reply_view, reads_reply, reply_view};
ghost use Rattle.std.specs.Option.{option_map};
ghost use Rattle.bac_service.specs.Values.{complex_name, members_answered};
ghost use Rattle.bac_service.specs.MemberViews.{members_view};
ghost use Rattle.bac_service.specs.Values.{content_answered, property_answered, reaches_end, service_answered, start_answered, values_answered};
ghost use Rattle.bac_service.specs.References.{property_reference_view};
ghost use Rattle.bac_service.specs.Values.{complex_choice_of, held_in};
ghost use Rattle.bac_service.specs.Writing.{Writes};

use crate::atomic_read_file::{FileRead, file_read_len, put_file_read, take_file_read};
use crate::atomic_write_file::{FileWritten, take_file_written};
use crate::file::{Content, string_copy};
use crate::member::{Member, Members};
use crate::member_len::signed_member_len;
use crate::property::PropertyReference;
use crate::read_error::ReadError;
use crate::read_property::{
    PropertyRead, property_read_len, put_property_read, take_property_read,
};
use crate::service::Service;
use crate::stop::{Stop, Why};
use bac_value::{Class, Data, DataBuf, Fault, NoMemory, OctetString, Octets, Parts, write_signed};
use std::alloc::Global;

/// The service data of a ComplexACK, with one type parameter for each service.
#[derive(Clone, Copy, Debug, Drop)]
pub enum AnyComplex<A, B, C> {
    /// AtomicReadFile, service choice 6.
    FileRead(A),
    /// AtomicWriteFile, service choice 7.
    FileWritten(B),
    /// ReadProperty, service choice 12.
    PropertyRead(C),
}

/// The service data of a ComplexACK, where these types hold data and the octets of a file.
pub type ComplexOver<D, C> = AnyComplex<FileRead<C>, FileWritten, PropertyRead<D>>;

/// The service data of a ComplexACK that borrow their octets.
pub type Complex<'a> = ComplexOver<Data<'a>, Content<'a>>;

/// A reply, where `C` is the service data of a ComplexACK.
#[derive(Clone, Copy, Debug, Drop)]
pub enum AnyReply<C> {
    /// SimpleACK: the request was performed, and there are no results.
    Simple,
    Complex(C),
    /// Error: the request failed; class and code say why (clause 18).
    Error { class: u32, code: u32 },
    /// Reject: the request was not performed; the reason is any octet.
    Reject(u8),
}

/// A reply that borrows its octets.
pub type Reply<'a> = AnyReply<Complex<'a>>;

/// The service data of a ComplexACK that own their octets.
pub type OwnedComplex = ComplexOver<DataBuf, OctetString>;

/// A reply that owns its octets.
pub type OwnedReply = AnyReply<OwnedComplex>;

/// Service data of a ComplexACK whose content and data are still the octets that they were read from.
pub(crate) type Told<O> = ComplexOver<O, O>;

/// Reads the members of the service data from left to right, and returns them and the octets after them.
fn members<O: Octets>(choice: u8, octets: O) -> Result<(Told<O>, O), Stop>
    ensures { Reads (complex_over_view O.octets O.octets) O.octets (O.octets octets) result (complex_members (service_at choice)) }
{
    match Service::of(choice) {
        Some(Service::AtomicReadFile) => {
            let (read, rest) = take_file_read(octets)?;
            Ok((AnyComplex::FileRead(read), rest))
        }
        Some(Service::AtomicWriteFile) => {
            let (place, rest) = take_file_written(octets)?;
            Ok((AnyComplex::FileWritten(place), rest))
        }
        Some(Service::ReadProperty) => {
            let (read, rest) = take_property_read(octets)?;
            Ok((AnyComplex::PropertyRead(read), rest))
        }
        Some(Service::WriteProperty) | None => Err(Stop::new(Why::Unexpected, octets.len())),
    }
}

/// Reads the whole octets as service data of a ComplexACK with this service choice, or returns what is wrong, and where.
#[tactic(auto, unfolding(crate::specs::Replies::complex_at))]
fn complex_in<O: Octets>(choice: u8, octets: O) -> Result<Told<O>, Fault>
    ensures spelled { IfOk result (λ c. SpellsComplex choice (complex_over_view O.octets O.octets c) (O.octets octets)) }
    ensures made { IfOk result (λ c. IsMadeOf (complex_over_view O.octets O.octets c)) }
    ensures refused { IfErr result (λ e. IsNoComplex choice (O.octets octets)) }
    ensures read { Gives (complex_over_view O.octets O.octets) (λ e. e) result (complex_at choice (O.octets octets)) }
    ensures place { IfErr result (λ e. e.at ≤ length (O.octets octets)) }
{
    // each of the octets is known to be below 256 from here on
    let all = octets.len();
    match members(choice, octets) {
        Ok(read) => match read.1.len() {
            0 => Ok(read.0),
            left => Err(Stop::new(Why::Surplus, left).fault_in(all)),
        },
        Err(stop) => Err(stop.fault_in(all)),
    }
}

fn complex_of(told: Told<&[u8]>) -> Complex<'_>
    requires { IsMadeOf (complex_over_view (λ s. s.now) (λ s. s.now) told) }
    ensures { complex_view result ≡ complex_over_view (λ s. s.now) (λ s. s.now) told.entry }
{
    match told {
        AnyComplex::FileRead(read) => {
            let content = Content {
                octets: read.content,
            };
            AnyComplex::FileRead(FileRead {
                end_of_file: read.end_of_file,
                start: read.start,
                content,
            })
        }
        AnyComplex::FileWritten(written) => AnyComplex::FileWritten(written),
        AnyComplex::PropertyRead(read) => {
            let values = Data {
                octets: read.values,
            };
            AnyComplex::PropertyRead(PropertyRead {
                reference: read.reference,
                values,
            })
        }
    }
}

/// Copies the service data of a ComplexACK, in one allocation if they have octets of data or of a file.
fn complex_copy<O: Octets>(alloc: Global, told: Told<O>) -> Result<OwnedComplex, NoMemory>
    requires { IsMadeOf (complex_over_view O.octets O.octets told) }
    ensures same { IfOk result (λ c. owned_complex_view c ≡ complex_over_view O.octets O.octets told) }
    ensures full { OnErr result (0 < length (held_in (complex_over_view O.octets O.octets told))) }
{
    match told {
        AnyComplex::FileRead(read) => {
            let content = string_copy(alloc, read.content)?;
            Ok(AnyComplex::FileRead(FileRead {
                end_of_file: read.end_of_file,
                start: read.start,
                content,
            }))
        }
        AnyComplex::FileWritten(place) => Ok(AnyComplex::FileWritten(place)),
        AnyComplex::PropertyRead(read) => {
            let values = DataBuf::copied(alloc, read.values)?;
            Ok(AnyComplex::PropertyRead(PropertyRead {
                reference: read.reference,
                values,
            }))
        }
    }
}

/// Reads the whole octets as the service data of a ComplexACK to a request with this service choice (clause 21).
///
/// Choices are 6, 7 and 12; for all others the fault is `ReservedTag` at 0. Members are read from left to right, and the place
/// of a fault is the offset of the tag where reading stopped. It is `ReservedTag` for a missing or an unexpected member,
/// `BadLength` for octets left over, otherwise what is wrong with a tag, contents or data (own rule of this profile).
pub fn read_reply(choice: u8, octets: &[u8]) -> Result<Complex<'_>, Fault>
    ensures found { IfOk result (λ c. SpellsComplex choice (complex_view c) octets.now) }
    ensures refused { IfErr result (λ e. IsNoComplex choice octets.now) }
    ensures read { Gives complex_view (λ e. e) result (complex_at choice octets.now) }
    ensures place { IfErr result (λ e. e.at ≤ length octets.now) }
{
    match complex_in(choice, octets) {
        Ok(told) => Ok(complex_of(told)),
        Err(fault) => Err(fault),
    }
}

/// Reads the joined octets of some pieces as `read_reply` does, and returns an owned copy.
///
/// The pieces are not joined, and the place of a fault counts from the front of the first. The copy takes one allocation if the
/// value has octets of data or of a file, otherwise none. `NoMemory` is returned only if the octets are valid and that
/// allocation fails.
pub fn read_reply_parts(
    alloc: Global,
    choice: u8,
    parts: Parts<'_>,
) -> Result<OwnedComplex, ReadError<Fault>>
    ensures found { IfOk result (λ c. SpellsComplex choice (owned_complex_view c) (parts_view parts.entry)) }
    ensures refused { IfRefused result (λ e. IsNoComplex choice (parts_view parts.entry)) }
    ensures last { IfNoMemory result ∥ ReplyNeedsMemory choice (parts_view parts.entry) ∥₁ }
    ensures read { GivesInMemory owned_complex_view (λ e. e) result (complex_at choice (parts_view parts.entry)) }
    ensures place { IfRefused result (λ e. e.at ≤ length (parts_view parts.entry)) }
{
    match complex_in(choice, parts) {
        Ok(told) => match complex_copy(alloc, told) {
            Ok(complex) => Ok(complex),
            Err(_) => Err(ReadError::NoMemory),
        },
        Err(fault) => Err(ReadError::Refused(fault)),
    }
}

fn is_read<O: Octets>(choice: u8, octets: O) -> bool
    ensures { result ≡ reads_reply choice (O.octets octets) }
{
    complex_in(choice, octets).is_ok()
}

/// Whether `read_reply_parts` can read the joined octets of some pieces. It does not allocate.
pub fn reads_reply_parts(choice: u8, parts: Parts<'_>) -> bool
    ensures read { result ≡ reads_reply choice (parts_view parts.entry) }
    ensures spelled { (result ≡ true) ↔ ∥ IsReply choice (parts_view parts.entry) ∥₁ }
{
    // each of the octets is known to be below 256 from here on
    let _count = parts.len();
    is_read(choice, parts)
}

/// Appends the service data of a ComplexACK in their one spelling (clause 21). Returns `NoMemory` and changes nothing if the
/// vector cannot grow.
pub fn write_reply(reply: Complex<'_>, out: &mut Vec<u8>) -> Result<(), NoMemory>
    ensures ok { Appends result out.old out.new (complex_spelling (complex_view reply.entry)) }
    ensures err { Keeps result out.old out.new }
    ensures full { NeedsRoom result out.old (complex_spelling (complex_view reply.entry)) }
    ensures spelled { SpellsComplex (complex_choice_of (complex_view reply.entry)) (complex_view reply.entry) (complex_spelling (complex_view reply.entry)) }
{
    out.reserve(reply_len(reply))?;
    match reply {
        AnyComplex::FileRead(read) => put_file_read(read, out),
        AnyComplex::FileWritten(FileWritten::Stream(start)) => {
            write_signed(Class::Context, 0, start, out)
        }
        AnyComplex::FileWritten(FileWritten::Records(start)) => {
            write_signed(Class::Context, 1, start, out)
        }
        AnyComplex::PropertyRead(read) => put_property_read(read, out),
    }
}

/// The length in octets of the service data of a ComplexACK. It does not allocate.
#[tactic(auto, using(crate::proofs::Wholes::length_complex, crate::proofs::Wholes::complex_spelled))]
pub fn reply_len(reply: Complex<'_>) -> usize
    ensures len { result ≡ length (complex_spelling (complex_view reply.entry)) }
    ensures spelled { SpellsComplex (complex_choice_of (complex_view reply.entry)) (complex_view reply.entry) (complex_spelling (complex_view reply.entry)) }
{
    match reply {
        AnyComplex::FileRead(read) => file_read_len(read),
        AnyComplex::FileWritten(FileWritten::Stream(start) | FileWritten::Records(start)) => {
            signed_member_len(start)
        }
        AnyComplex::PropertyRead(read) => property_read_len(read),
    }
}

impl Complex<'_> {
    /// Copies the value, in one allocation if it has octets of data or of a file and in none otherwise.
    pub fn to_owned(self, alloc: Global) -> Result<OwnedComplex, NoMemory>
        ensures same { IfOk result (λ c. owned_complex_view c ≡ complex_view self.entry) }
        ensures full { OnErr result (0 < length (held_in (complex_view self.entry))) }
    {
        match self {
            AnyComplex::FileRead(read) => {
                let content = string_copy(alloc, read.content.octets)?;
                Ok(AnyComplex::FileRead(FileRead {
                    end_of_file: read.end_of_file,
                    start: read.start,
                    content,
                }))
            }
            AnyComplex::FileWritten(place) => Ok(AnyComplex::FileWritten(place)),
            AnyComplex::PropertyRead(read) => {
                let values = read.values.to_owned(alloc)?;
                Ok(AnyComplex::PropertyRead(PropertyRead {
                    reference: read.reference,
                    values,
                }))
            }
        }
    }
}

impl<'a> Complex<'a> {
    /// The service whose ComplexACK has these service data.
    pub fn service(self) -> Service
        ensures { result ≡ service_answered (complex_view self.entry) }
    {
        match self {
            AnyComplex::FileRead(_) => Service::AtomicReadFile,
            AnyComplex::FileWritten(FileWritten::Stream(_) | FileWritten::Records(_)) => {
                Service::AtomicWriteFile
            }
            AnyComplex::PropertyRead(_) => Service::ReadProperty,
        }
    }

    /// The property whose values they are; None if they are of a file.
    pub fn property(self) -> Option<PropertyReference>
        ensures { option_map property_reference_view result ≡ property_answered (complex_view self.entry) }
    {
        match self {
            AnyComplex::PropertyRead(read) => Some(read.reference),
            AnyComplex::FileRead(_)
            | AnyComplex::FileWritten(FileWritten::Stream(_) | FileWritten::Records(_)) => None,
        }
    }

    /// The values of a property.
    pub fn values(self) -> Option<Data<'a>>
        ensures { option_map (λ d. d.octets.now) result ≡ values_answered (complex_view self.entry) }
    {
        match self {
            AnyComplex::PropertyRead(read) => Some(read.values),
            AnyComplex::FileRead(_)
            | AnyComplex::FileWritten(FileWritten::Stream(_) | FileWritten::Records(_)) => None,
        }
    }

    /// The octets of a file.
    pub fn content(self) -> Option<Content<'a>>
        ensures { option_map (λ c. c.octets.now) result ≡ content_answered (complex_view self.entry) }
    {
        match self {
            AnyComplex::FileRead(read) => Some(read.content),
            AnyComplex::FileWritten(FileWritten::Stream(_) | FileWritten::Records(_))
            | AnyComplex::PropertyRead(_) => None,
        }
    }

    /// The octets of values or of a file; none where a file was written.
    pub fn octets(self) -> &'a [u8]
        ensures { result.now ≡ held_in (complex_view self.entry) }
    {
        match self {
            AnyComplex::FileRead(read) => read.content.octets,
            AnyComplex::FileWritten(FileWritten::Stream(_) | FileWritten::Records(_)) => &[],
            AnyComplex::PropertyRead(read) => read.values.octets,
        }
    }

    /// Whether octets of a file reach its end.
    pub fn reaches_end(self) -> bool
        ensures { result ≡ reaches_end (complex_view self.entry) }
    {
        match self {
            AnyComplex::FileRead(read) => read.end_of_file,
            AnyComplex::FileWritten(FileWritten::Stream(_) | FileWritten::Records(_))
            | AnyComplex::PropertyRead(_) => false,
        }
    }

    /// The position, or the record, from which on a file was read or written; None for a property.
    pub fn start(self) -> Option<i64>
        ensures { result ≡ start_answered (complex_view self.entry) }
    {
        match self {
            AnyComplex::FileRead(read) => Some(read.start),
            AnyComplex::FileWritten(FileWritten::Stream(start) | FileWritten::Records(start)) => {
                Some(start)
            }
            AnyComplex::PropertyRead(_) => None,
        }
    }

    /// The name of the service data, as `bac decode` prints it.
    pub fn name(self) -> &'static str
        ensures { result.now ≡ complex_name (complex_view self.entry) }
    {
        match self {
            AnyComplex::FileRead(_) => "read-file-ack",
            AnyComplex::FileWritten(FileWritten::Stream(_) | FileWritten::Records(_)) => {
                "write-file-ack"
            }
            AnyComplex::PropertyRead(_) => "read-property-ack",
        }
    }

    /// The members of the service data by their names, in the order in which they are printed.
    pub fn members(self) -> Members<'a>
        ensures { members_view result ≡ members_answered (complex_view self.entry) }
    {
        match self {
            AnyComplex::FileRead(read) => Members::three([
                Member::EndOfFile(read.end_of_file),
                Member::Position(read.start),
                Member::Content(read.content),
            ]),
            AnyComplex::FileWritten(FileWritten::Stream(start)) => {
                Members::one(Member::Position(start))
            }
            AnyComplex::FileWritten(FileWritten::Records(start)) => {
                Members::one(Member::Record(start))
            }
            AnyComplex::PropertyRead(read) => Members::four([
                Member::Object(read.reference.object),
                Member::Property(read.reference.property),
                Member::Index(read.reference.index),
                Member::Values(read.values),
            ]),
        }
    }
}

impl Reply<'_> {
    /// Copies the value, in one allocation if it has octets of data or of a file and in none otherwise.
    pub fn to_owned(self, alloc: Global) -> Result<OwnedReply, NoMemory>
        ensures same { IfOk result (λ r. owned_reply_view r ≡ reply_view self.entry) }
        ensures full { OnErr result (0 < length (held_by (reply_view self.entry))) }
    {
        match self {
            AnyReply::Simple => Ok(AnyReply::Simple),
            AnyReply::Complex(told) => {
                let copy = told.to_owned(alloc)?;
                Ok(AnyReply::Complex(copy))
            }
            AnyReply::Error { class, code } => Ok(AnyReply::Error { class, code }),
            AnyReply::Reject(reason) => Ok(AnyReply::Reject(reason)),
        }
    }
}

impl OwnedComplex {
    /// Borrows the value. It does not allocate.
    pub fn as_complex(&self) -> Complex<'_>
        ensures { complex_view result ≡ owned_complex_view self.now }
    {
        match self {
            AnyComplex::FileRead(read) => {
                let content = Content {
                    octets: read.content.octets.as_slice(),
                };
                AnyComplex::FileRead(FileRead {
                    end_of_file: read.end_of_file,
                    start: read.start,
                    content,
                })
            }
            AnyComplex::FileWritten(place) => AnyComplex::FileWritten(*place),
            AnyComplex::PropertyRead(read) => {
                let values = read.values.as_data();
                AnyComplex::PropertyRead(PropertyRead {
                    reference: read.reference,
                    values,
                })
            }
        }
    }
}

impl OwnedReply {
    /// Borrows the value. It does not allocate.
    pub fn as_reply(&self) -> Reply<'_>
        ensures { reply_view result ≡ owned_reply_view self.now }
    {
        match self {
            AnyReply::Simple => AnyReply::Simple,
            AnyReply::Complex(told) => AnyReply::Complex(told.as_complex()),
            AnyReply::Error { class, code } => AnyReply::Error {
                class: *class,
                code: *code,
            },
            AnyReply::Reject(reason) => AnyReply::Reject(*reason),
        }
    }
}
