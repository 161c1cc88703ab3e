//! Application values as text: each kind has a name, and a value is printed as the name of its kind, a separator and the value itself.
//!
//! The printed text of a value reads as that value and as no other. Data are printed element by element; objects, properties, errors and
//! reasons are printed by name. This crate also reads the numbers, octets and objects in words for all other crates.
//!
//! It has the names and numbers of object types, properties, error classes, error codes, and the reasons of Rejects and Aborts of the
//! standard (ANSI/ASHRAE 135-2020, clause 21).
#![tactic(auto)]

mod abort_reasons;
mod body_printing;
mod body_reading;
mod data_printing;
mod error_classes;
mod error_codes;
mod laws;
mod name_laws;
mod numbers;
mod object_types;
mod properties;
mod reasons;
mod reject_reasons;
mod rows;
mod separator;
mod value_fault;
mod value_printing;
mod value_reading;

pub use abort_reasons::abort_reason_name;
pub use body_printing::{object_text, property_text};
pub use body_reading::{object_in, property_in};
pub use data_printing::data_text;
pub use error_classes::error_class_name;
pub use error_codes::error_code_name;
pub use laws::printed_values_are_read;
pub use name_laws::names_and_numbers_are_inverse;
pub use numbers::{number_in, number_up_to, octets_in, parts_at, signed_in};
pub use object_types::{object_type_name, object_type_named, object_type_number};
pub use properties::{property_name, property_named, property_number};
pub use reasons::{abort_text, error_text, reject_text};
pub use reject_reasons::reject_reason_name;
pub use separator::Separator;
pub use value_fault::ValueFault;
pub use value_printing::value_text;
pub use value_reading::read_value;
