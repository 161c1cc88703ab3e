//! Requests of the four services, generic over what holds their octets.
ghost use Rattle.std.specs.Prelude.{◌≡◌, ◌+◌, ◌++◌, ◌<◌, ◌≤◌, ◌↔◌, IfOk, IfErr, IsErrOf, OnOk, OnErr, length, vec_len, vec_capacity};
ghost use Rattle.bac_value.specs.Appending.{Appends, Keeps, NeedsRoom};
ghost use Rattle.bac_value.specs.Steps.{Reads};
ghost use Rattle.std.specs.Option.{option_map};
ghost use Rattle.bac_value.specs.Views.{object_identifier_view, parts_view};
ghost use Rattle.bac_service.specs.Values.{members_asked, request_name};
ghost use Rattle.bac_service.specs.MemberViews.{members_view};
ghost use Rattle.bac_service.specs.Values.{is_append, object_asked, priority_asked, property_asked, service_asked, start_asked, verb_asked};
ghost use Rattle.bac_service.specs.References.{property_reference_view};
ghost use Rattle.bac_service.specs.WriteProperty.{priority_view};
ghost use Rattle.bac_service.specs.Refusals.{Gives, GivesInMemory, IfNoMemory, IfRefused, reason_number};
ghost use Rattle.bac_service.specs.Requests.{IsMade, IsNoRequest, IsRequest, IsUnknown, NeedsMemory, SpellsRequest, owned_request_view};
ghost use Rattle.bac_service.specs.Requests.{request_at, request_length, request_members, request_over_view, request_spelling, request_view};
ghost use Rattle.bac_service.specs.Sights.{left};
ghost use Rattle.bac_service.specs.Values.{choice_of, held};
ghost use Rattle.bac_service.specs.Writing.{Writes};

use crate::atomic_read_file::{ReadFile, put_read_file, read_file_len, take_read_file};
use crate::atomic_write_file::{
    WriteFile, access_copy, access_of, access_to_owned, lent_access, put_write_file,
    take_write_file, write_file_len,
};
use crate::file::Content;
use crate::member::{Member, Members};
use crate::owned_records::OwnedRecords;
use crate::priority::Priority;
use crate::property::{PropertyReference, property_reference, put_reference, reference_len};
use crate::read_error::ReadError;
use crate::records::{Records, Run};
use crate::reject::Reject;
use crate::service::Service;
use crate::stop::{Stop, Why};
use crate::write_property::{
    WriteProperty, put_write_property, take_write_property, write_property_len,
};
use bac_value::{Data, DataBuf, NoMemory, ObjectIdentifier, OctetString, Octets, Parts};
use std::alloc::Global;

/// A request of one of the four services, with one type parameter for each service.
#[derive(Clone, Copy, Debug, Drop)]
pub enum AnyRequest<A, B, C, D> {
    /// AtomicReadFile, service choice 6.
    ReadFile(A),
    /// AtomicWriteFile, service choice 7.
    WriteFile(B),
    /// ReadProperty, service choice 12.
    ReadProperty(C),
    /// WriteProperty, service choice 15.
    WriteProperty(D),
}

/// A request, where these types hold data, octets for a file, and records for a file.
pub type RequestOver<D, C, R> = AnyRequest<
    ReadFile,
    WriteFile<C, R>,
    PropertyReference,
    WriteProperty<D>,
>;

/// A request that borrows its octets.
pub type Request<'a> = RequestOver<Data<'a>, Content<'a>, Records<'a>>;

/// A request that owns its octets.
pub type OwnedRequest = RequestOver<DataBuf, OctetString, OwnedRecords>;

/// A request whose strings and data are still the octets that it was read from.
pub(crate) type Found<O> = RequestOver<O, O, Run<O>>;

/// Reads the members of a request from left to right, and returns them and the octets after them.
fn members<O: Octets>(service: Service, octets: O) -> Result<(Found<O>, O), Stop>
    ensures { Reads (request_over_view (left O.octets)) O.octets (O.octets octets) result (request_members service) }
{
    match service {
        Service::AtomicReadFile => {
            let (read, rest) = take_read_file(octets)?;
            Ok((AnyRequest::ReadFile(read), rest))
        }
        Service::AtomicWriteFile => {
            let (write, rest) = take_write_file(octets)?;
            Ok((AnyRequest::WriteFile(write), rest))
        }
        Service::ReadProperty => {
            let (reference, rest) = property_reference(octets)?;
            Ok((AnyRequest::ReadProperty(reference), rest))
        }
        Service::WriteProperty => {
            let (write, rest) = take_write_property(octets)?;
            Ok((AnyRequest::WriteProperty(write), rest))
        }
    }
}

/// Reads the whole octets as a request with this service choice, or returns the reason for rejecting it.
#[tactic(auto, unfolding(crate::specs::Requests::request_at))]
fn request_in<O: Octets>(choice: u8, octets: O) -> Result<Found<O>, Reject>
    ensures spelled { IfOk result (λ f. SpellsRequest choice (request_over_view (left O.octets) f) (O.octets octets)) }
    ensures made { IfOk result (λ f. IsMade (request_over_view (left O.octets) f)) }
    ensures refused { IfErr result (λ e. IsNoRequest choice (O.octets octets)) }
    ensures read { Gives (request_over_view (left O.octets)) reason_number result (request_at choice (O.octets octets)) }
    ensures unknown { IsErrOf result Reject.UnrecognizedService ↔ IsUnknown choice }
{
    // each of the octets is known to be below 256 from here on
    let _count = octets.len();
    let Some(service) = Service::of(choice) else {
        return Err(Reject::UnrecognizedService);
    };
    match members(service, octets) {
        Ok(read) => match read.1.len() {
            0 => Ok(read.0),
            left => Err(Stop::new(Why::Surplus, left).reject()),
        },
        Err(stop) => Err(stop.reject()),
    }
}

fn request_of(found: Found<&[u8]>) -> Request<'_>
    requires { IsMade (request_over_view (left (λ s. s.now)) found) }
    ensures { request_view result ≡ request_over_view (left (λ s. s.now)) found.entry }
{
    match found {
        AnyRequest::ReadFile(read) => AnyRequest::ReadFile(read),
        AnyRequest::WriteFile(write) => {
            let access = access_of(write.access);
            let file = write.file;
            AnyRequest::WriteFile(WriteFile { file, access })
        }
        AnyRequest::ReadProperty(reference) => AnyRequest::ReadProperty(reference),
        AnyRequest::WriteProperty(write) => {
            let values = Data {
                octets: write.values,
            };
            AnyRequest::WriteProperty(WriteProperty {
                reference: write.reference,
                values,
                priority: write.priority,
            })
        }
    }
}

/// Copies a request, in one allocation if it has octets.
fn request_copy<O: Octets>(alloc: Global, found: Found<O>) -> Result<OwnedRequest, NoMemory>
    requires { IsMade (request_over_view (left O.octets) found) }
    ensures same { IfOk result (λ r. owned_request_view r ≡ request_over_view (left O.octets) found) }
    ensures full { OnErr result (0 < length (held (request_over_view (left O.octets) found))) }
{
    match found {
        AnyRequest::ReadFile(read) => Ok(AnyRequest::ReadFile(read)),
        AnyRequest::WriteFile(write) => {
            let access = access_copy(alloc, write.access)?;
            let file = write.file;
            Ok(AnyRequest::WriteFile(WriteFile { file, access }))
        }
        AnyRequest::ReadProperty(reference) => Ok(AnyRequest::ReadProperty(reference)),
        AnyRequest::WriteProperty(write) => {
            let values = DataBuf::copied(alloc, write.values)?;
            Ok(AnyRequest::WriteProperty(WriteProperty {
                reference: write.reference,
                values,
                priority: write.priority,
            }))
        }
    }
}

/// Reads the whole octets as a request with this service choice (clause 21).
///
/// Returns `UnrecognizedService` exactly if the choice is not 6, 7, 12 or 15. Otherwise members are read from left to right, and
/// the first fault is returned: `MissingRequiredParameter` if the octets end too early; `InvalidTag` for an unexpected, reserved
/// or unbalanced tag, or a ninth open tag; `InvalidParameterDataType` for a tag whose number or length takes more octets than
/// it needs, for low bits that are invalid for a tag's number, and for contents that are invalid for their type;
/// `ParameterOutOfRange` for a priority outside 1 to 16; `InconsistentParameters` for a count that differs from the number of
/// octet strings; `TooManyArguments` for octets left over.
pub fn read_request(choice: u8, octets: &[u8]) -> Result<Request<'_>, Reject>
    ensures found { IfOk result (λ r. SpellsRequest choice (request_view r) octets.now) }
    ensures refused { IfErr result (λ e. IsNoRequest choice octets.now) }
    ensures read { Gives request_view reason_number result (request_at choice octets.now) }
    ensures unknown { IsErrOf result Reject.UnrecognizedService ↔ IsUnknown choice }
{
    match request_in(choice, octets) {
        Ok(found) => Ok(request_of(found)),
        Err(reject) => Err(reject),
    }
}

/// Reads the joined octets of some pieces as `read_request` does, and returns an owned copy.
///
/// The pieces are not joined. The copy takes one allocation if the request has octets of data, of a file or of records, otherwise
/// none. `NoMemory` is returned only if the octets are a valid request and that allocation fails.
pub fn read_request_parts(
    alloc: Global,
    choice: u8,
    parts: Parts<'_>,
) -> Result<OwnedRequest, ReadError<Reject>>
    ensures found { IfOk result (λ r. SpellsRequest choice (owned_request_view r) (parts_view parts.entry)) }
    ensures refused { IfRefused result (λ e. IsNoRequest choice (parts_view parts.entry)) }
    ensures last { IfNoMemory result ∥ NeedsMemory choice (parts_view parts.entry) ∥₁ }
    ensures read { GivesInMemory owned_request_view reason_number result (request_at choice (parts_view parts.entry)) }
    ensures unknown { IsErrOf result (ReadError.Refused Reject.UnrecognizedService) ↔ IsUnknown choice }
{
    match request_in(choice, parts) {
        Ok(found) => match request_copy(alloc, found) {
            Ok(request) => Ok(request),
            Err(_) => Err(ReadError::NoMemory),
        },
        Err(reject) => Err(ReadError::Refused(reject)),
    }
}

/// Appends the service data of a request in their one spelling (clause 21). Returns `NoMemory` and changes nothing if the vector
/// cannot grow.
pub fn write_request(request: Request<'_>, out: &mut Vec<u8>) -> Result<(), NoMemory>
    ensures ok { Appends result out.old out.new (request_spelling (request_view request.entry)) }
    ensures err { Keeps result out.old out.new }
    ensures full { NeedsRoom result out.old (request_spelling (request_view request.entry)) }
    ensures spelled { SpellsRequest (choice_of (request_view request.entry)) (request_view request.entry) (request_spelling (request_view request.entry)) }
{
    out.reserve(request_len(request))?;
    match request {
        AnyRequest::ReadFile(read) => put_read_file(read, out),
        AnyRequest::WriteFile(write) => put_write_file(write, out),
        AnyRequest::ReadProperty(reference) => put_reference(reference, out),
        AnyRequest::WriteProperty(write) => put_write_property(write, out),
    }
}

/// The length in octets of the service data of a request. It does not allocate.
#[tactic(auto, using(crate::proofs::Wholes::length_request, crate::proofs::Wholes::request_spelled))]
pub fn request_len(request: Request<'_>) -> usize
    ensures len { result ≡ length (request_spelling (request_view request.entry)) }
    ensures spelled { SpellsRequest (choice_of (request_view request.entry)) (request_view request.entry) (request_spelling (request_view request.entry)) }
{
    match request {
        AnyRequest::ReadFile(read) => read_file_len(read),
        AnyRequest::WriteFile(write) => write_file_len(write),
        AnyRequest::ReadProperty(reference) => reference_len(reference),
        AnyRequest::WriteProperty(write) => write_property_len(write),
    }
}

impl Request<'_> {
    /// Copies the request, in one allocation if it has octets and in none otherwise.
    pub fn to_owned(self, alloc: Global) -> Result<OwnedRequest, NoMemory>
        ensures same { IfOk result (λ r. owned_request_view r ≡ request_view self.entry) }
        ensures full { OnErr result (0 < length (held (request_view self.entry))) }
    {
        match self {
            AnyRequest::ReadFile(read) => Ok(AnyRequest::ReadFile(read)),
            AnyRequest::WriteFile(write) => {
                let access = access_to_owned(alloc, write.access)?;
                let file = write.file;
                Ok(AnyRequest::WriteFile(WriteFile { file, access }))
            }
            AnyRequest::ReadProperty(reference) => Ok(AnyRequest::ReadProperty(reference)),
            AnyRequest::WriteProperty(write) => {
                let values = write.values.to_owned(alloc)?;
                Ok(AnyRequest::WriteProperty(WriteProperty {
                    reference: write.reference,
                    values,
                    priority: write.priority,
                }))
            }
        }
    }
}

impl<'a> Request<'a> {
    /// The service of the request.
    pub fn service(self) -> Service
        ensures { result ≡ service_asked (request_view self.entry) }
    {
        match self {
            AnyRequest::ReadFile(_) => Service::AtomicReadFile,
            AnyRequest::WriteFile(_) => Service::AtomicWriteFile,
            AnyRequest::ReadProperty(_) => Service::ReadProperty,
            AnyRequest::WriteProperty(_) => Service::WriteProperty,
        }
    }

    /// The service choice of the request.
    #[tactic(auto, using(crate::proofs::Choices::choice_asked))]
    pub fn choice(self) -> u8
        ensures { result ≡ choice_of (request_view self.entry) }
    {
        self.service().choice()
    }

    /// The object that the request is for; of the file services the file.
    pub fn object(self) -> ObjectIdentifier
        ensures { object_identifier_view result ≡ object_asked (request_view self.entry) }
    {
        match self {
            AnyRequest::ReadFile(read) => read.file,
            AnyRequest::WriteFile(write) => write.file,
            AnyRequest::ReadProperty(reference) => reference.object,
            AnyRequest::WriteProperty(write) => write.reference.object,
        }
    }

    /// The property that the request is for; None if it is for a file.
    pub fn property(self) -> Option<PropertyReference>
        ensures { option_map property_reference_view result ≡ property_asked (request_view self.entry) }
    {
        match self {
            AnyRequest::ReadFile(_) | AnyRequest::WriteFile(_) => None,
            AnyRequest::ReadProperty(reference) => Some(reference),
            AnyRequest::WriteProperty(write) => Some(write.reference),
        }
    }

    /// The position, or the record, from which on a file is read or written; None if the request is for a property.
    pub fn start(self) -> Option<i64>
        ensures { result ≡ start_asked (request_view self.entry) }
    {
        match self {
            AnyRequest::ReadFile(read) => Some(read.access.start()),
            AnyRequest::WriteFile(write) => Some(write.access.start()),
            AnyRequest::ReadProperty(_) | AnyRequest::WriteProperty(_) => None,
        }
    }

    /// The octets of the values, for the file or of the records that the request writes; none if it reads.
    pub fn octets(self) -> &'a [u8]
        ensures { result.now ≡ held (request_view self.entry) }
    {
        match self {
            AnyRequest::WriteFile(write) => write.access.octets(),
            AnyRequest::WriteProperty(write) => write.values.octets,
            AnyRequest::ReadFile(_) | AnyRequest::ReadProperty(_) => &[],
        }
    }

    /// The priority of a write, if it has one.
    pub fn priority(self) -> Option<Priority>
        ensures { priority_view result ≡ priority_asked (request_view self.entry) }
    {
        match self {
            AnyRequest::WriteProperty(write) => write.priority,
            AnyRequest::ReadFile(_) | AnyRequest::WriteFile(_) | AnyRequest::ReadProperty(_) =>
                None,
        }
    }

    /// Whether the request has octets for the end of a file.
    pub fn is_append(self) -> bool
        ensures { result ≡ is_append (request_view self.entry) }
    {
        match self {
            AnyRequest::WriteFile(write) => write.access.appends_octets(),
            AnyRequest::ReadFile(_) | AnyRequest::ReadProperty(_) | AnyRequest::WriteProperty(_) =>
                false,
        }
    }

    /// The first word of the request, as `bac ask` takes it.
    pub fn verb(self) -> &'static str
        ensures { result.now ≡ verb_asked (request_view self.entry) }
    {
        if self.is_append() {
            "append"
        } else {
            self.service().verb()
        }
    }

    /// The name of the request, as `bac decode` prints it.
    pub fn name(self) -> &'static str
        ensures { result.now ≡ request_name (request_view self.entry) }
    {
        match self {
            AnyRequest::ReadFile(read) => read.name(),
            AnyRequest::WriteFile(write) => write.name(),
            AnyRequest::ReadProperty(_) => "read-property",
            AnyRequest::WriteProperty(_) => "write-property",
        }
    }

    /// The members of the request by their names, in the order in which they are printed.
    pub fn members(self) -> Members<'a>
        ensures { members_view result ≡ members_asked (request_view self.entry) }
    {
        match self {
            AnyRequest::ReadFile(read) => read.members(),
            AnyRequest::WriteFile(write) => write.members(),
            AnyRequest::ReadProperty(reference) => Members::three([
                Member::Object(reference.object),
                Member::Property(reference.property),
                Member::Index(reference.index),
            ]),
            AnyRequest::WriteProperty(write) => Members::five([
                Member::Object(write.reference.object),
                Member::Property(write.reference.property),
                Member::Index(write.reference.index),
                Member::Values(write.values),
                Member::Priority(write.priority),
            ]),
        }
    }
}

impl OwnedRequest {
    /// Borrows the request. It does not allocate.
    pub fn as_request(&self) -> Request<'_>
        ensures { request_view result ≡ owned_request_view self.now }
    {
        match self {
            AnyRequest::ReadFile(read) => AnyRequest::ReadFile(*read),
            AnyRequest::WriteFile(write) => {
                let access = lent_access(&write.access);
                let file = write.file;
                AnyRequest::WriteFile(WriteFile { file, access })
            }
            AnyRequest::ReadProperty(reference) => AnyRequest::ReadProperty(*reference),
            AnyRequest::WriteProperty(write) => {
                let values = write.values.as_data();
                AnyRequest::WriteProperty(WriteProperty {
                    reference: write.reference,
                    values,
                    priority: write.priority,
                })
            }
        }
    }
}
