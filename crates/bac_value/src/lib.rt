//! Encoding of BACnet tags, values and data (clause 20.2): types, readers and writers.
//!
//! Each tag, value and element has exactly one spelling. Readers accept these spellings only, and return a [`FaultKind`] for all
//! other octets. Only two things allocate: calls that take an allocator, and an output vector that has to grow.
//!
//! Writers append the one spelling, or return [`NoMemory`] if an allocation fails. A `write_` call then leaves the output unchanged.
//! A `put_` call then leaves the old octets as a prefix of the output, so that a caller of several of them truncates only once.
#![tactic(auto)]

mod contents;
mod data;
mod data_elements;
mod data_reading;
mod data_writing;
mod element;
mod element_reading;
mod fault;
pub mod kinds;
mod memory;
mod number_reading;
mod number_width;
mod octets;
mod parts;
mod parts_reading;
mod tag;
mod tag_reading;
mod tag_writing;
mod value;
mod value_reading;
mod value_writing;

pub use contents::{exact_contents, take_contents};
pub use data::{Data, DataBuf};
pub use data_elements::DataElements;
pub use data_reading::{one_data_front, read_data, take_data};
pub use data_writing::write_data;
pub use element::Element;
pub use element_reading::{one_element_spelling, read_element, take_element};
pub use fault::{Fault, FaultKind};
pub use memory::NoMemory;
pub use number_reading::{take_enumerated, take_object_identifier, take_signed, take_unsigned};
pub use number_width::{signed_len, unsigned_len};
pub use octets::{Octets, copy_of};
pub use parts::Parts;
pub use parts_reading::{check_data_at, copy_out, read_tag_at};
pub use tag::{Class, Form, Tag};
pub use tag_reading::{one_tag_spelling, read_tag, take_tag};
pub use tag_writing::write_tag;
pub use value::{BitString, CharacterString, ObjectIdentifier, OctetString, Value};
pub use value_reading::value_of;
pub use value_writing::{
    one_value_spelling, write_boolean, write_object_identifier, write_primitive, write_signed,
    write_unsigned, write_value,
};
