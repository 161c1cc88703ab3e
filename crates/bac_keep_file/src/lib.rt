//! The file of a store that is kept: a database that sqlite3 reads, with one table of cells; the keeper over it; and forgetting some of what it keeps.
#![tactic(auto)]

mod cells;
mod checkpoint;
mod databases;
mod fault;
mod file;
mod forgetting;
mod idle;
mod laws;
mod listing;
mod noting;
mod putting;
mod reading;
mod selection;
mod table;
mod traces;
mod whole;

pub use cells::CellKeeper;
pub use checkpoint::Checkpoint;
pub use databases::Databases;
pub use fault::OpenFault;
pub use file::{KeptFile, open, open_files};
pub use forgetting::forget;
pub use laws::forgotten_is_of_the_document;
pub use listing::kept_cells;
pub use selection::Selection;
pub use whole::Loss;
