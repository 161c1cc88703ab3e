//! Tables of slots with distinct keys, which allocate all their memory when they are created, and tables of values that age.
//!
//! Both ends of a node keep their transactions in such tables.
//!
//! The slots of a client's and a server's transactions are in the order in which they began. A value is alive for a guaranteed time, and has
//! a moment before which a tick has nothing to do for it. So a sweep starts at the oldest slot and stops as early as possible, and a
//! tick before the first due moment looks at no slot.
#![tactic(auto)]

mod aged;
mod aged_table;
mod ages;
mod block;
mod blocks;
mod comparing;
mod each;
mod entering;
mod filling;
mod guide;
mod index_slots;
mod laws;
mod places;
mod plain_slots;
mod removing;
mod seeking;
mod slot;
mod slot_table;
mod spot;
mod sweeping;
mod ticking;

pub use aged::{Aged, Ticks};
pub use aged_table::{AgedTable, empty_table};
pub use ages::Ages;
pub use comparing::{Same, same_tables};
pub use each::{SlotFact, each_slot};
pub use entering::{count_alive, enter, has_room, remove_dead};
pub use index_slots::IndexSlots;
pub use laws::{
    ascending_slots, putting_a_slot, ranks_of_keys, removing_a_slot, setting_a_value,
    setting_again, slots_in_order, sweeping_slots,
};
pub use plain_slots::PlainSlots;
pub use removing::remove;
pub use seeking::seek;
pub use slot::Slot;
pub use slot_table::{Count, SlotTable};
pub use sweeping::{Test, count_passing, has_room_once_swept, sweep, sweep_oldest};
pub use ticking::{first_due, tick};
