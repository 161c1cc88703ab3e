//! Requests and replies of the four services (clauses 14 and 15), decoded from and encoded as service data (clause 21).
//!
//! Each service has a file with its types, readers, writers and lengths. `request` and `reply` cover all four services.
#![tactic(auto)]

mod atomic_read_file;
mod atomic_write_file;
mod comparing;
mod file;
mod laws;
mod member;
mod member_len;
mod member_reading;
mod member_writing;
mod owned_records;
mod priority;
mod property;
mod read_error;
mod read_property;
mod records;
mod reject;
mod reply;
mod request;
mod service;
mod stop;
mod tag_reading;
mod write_property;

pub use atomic_read_file::{FileRead, ReadAccess, ReadFile};
pub use atomic_write_file::{FileWritten, WriteAccess, WriteFile, WriteRecords, WriteStream};
pub use comparing::{same_object, same_reply, same_request};
pub use file::Content;
pub use laws::{one_reply_spelling, one_request_spelling, replies_are_read, requests_are_read};
pub use member::{Member, Members};
pub use owned_records::OwnedRecords;
pub use priority::Priority;
pub use property::PropertyReference;
pub use read_error::ReadError;
pub use read_property::PropertyRead;
pub use records::Records;
pub use reject::Reject;
pub use reply::{
    AnyComplex, AnyReply, Complex, ComplexOver, OwnedComplex, OwnedReply, Reply, read_reply,
    read_reply_parts, reads_reply_parts, reply_len, write_reply,
};
pub use request::{
    AnyRequest, OwnedRequest, Request, RequestOver, read_request, read_request_parts, request_len,
    write_request,
};
pub use service::{
    ATOMIC_READ_FILE, ATOMIC_WRITE_FILE, READ_PROPERTY, Service, WRITE_PROPERTY, is_read_choice,
};
pub use write_property::WriteProperty;
