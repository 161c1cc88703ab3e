//! Values as people write and read them: `72.3`, `active`, `degrees-celsius`, with no word for their kind.
//!
//! An [`Enumeration`] has the names of an enumeration of the standard (ANSI/ASHRAE 135-2020, clause 21), and [`enumeration_of`] says which one
//! a property has. [`value_alone`] prints a value, and [`value_as_written`] reads one, given the kind that it has to have.
#![tactic(auto)]

mod advice;
mod alone;
mod enumeration;
mod kind;
mod laws;
mod lines;
mod list_alone;
mod lists;
mod names;
mod nearest;
mod property_names;
mod refusing;
mod set_bits;
mod utf8;
mod written;
mod written_fault;

pub use advice::names_advice;
pub use alone::value_alone;
pub use enumeration::{Enumeration, Listed, NamedNumber};
pub use kind::Kind;
pub use laws::{enumerations_are_inverse, enumerations_are_listed, plain_texts_are_read};
pub use list_alone::data_alone;
pub use lists::{enumerations_text, names_text};
pub use property_names::enumeration_of;
pub use written::value_as_written;
pub use written_fault::WrittenFault;
