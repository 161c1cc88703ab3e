//! Stores that survive power cuts: what a node performs is kept in cells, over the store of a document. Where cells lie is a keeper's own.
#![tactic(auto)]

mod cell;
mod fault;
mod keeper;
mod laws;
mod made;
mod part;
mod performed;
mod restoring;

pub use cell::{CHUNK, Cell, FILES, NUMBERS, file_place, value_place};
pub use fault::{DatabaseFault, KeepFault};
pub use keeper::{Keeper, KeepsNothing};
pub use laws::{cells_are_writes, power_cuts_leave_one_of_two};
pub use made::Made;
pub use part::Part;
pub use performed::note_request;
pub use restoring::restored;
