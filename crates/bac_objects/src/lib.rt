//! Reads the objects of a store from a TOML document.
#![tactic(auto)]

mod bits;
mod collecting;
mod consistency;
mod described;
mod described_property;
mod document;
mod fault;
mod finding;
mod form;
mod found;
mod given;
mod held;
mod help;
mod identifier;
mod known_keys;
mod mended;
mod names;
mod object;
mod outline;
mod packing;
mod problem;
mod property;
mod refusals;
mod scalars;
mod standard;
mod states;
mod steps;
mod type_names;
mod values;

pub use collecting::document_findings;
pub use document::{read_object_list, read_objects};
pub use fault::{DocumentFault, Place, Refusal};
pub use finding::{Finding, Wrong};
pub use form::{Kind, ValueForm};
pub use help::Help;
pub use problem::{Given, Problem, Wanted};
pub use steps::{DocumentSteps, ReadDocument};
