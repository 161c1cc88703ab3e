//! What the tests share.
use bac_rows::{holds, octets_of};

mod failures;
mod memory;
mod slots;
