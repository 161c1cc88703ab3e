//! The store of a device: objects, properties and files, read and written by the four services (clauses 12, 14 and 15).
//!
//! A request is performed in two steps. [`Store::prepare`] returns a plan, which contains the reply and the change with all its memory.
//! [`Store::commit`] makes the change; it does not allocate and always succeeds. [`Store::change`] makes a local change.
#![tactic(auto)]

mod allowed;
mod allowing;
mod arrays;
mod change;
mod change_fault;
mod changing;
mod checking;
mod comparing;
mod copying;
mod describing;
mod description_fault;
mod entry;
mod files;
mod house_objects;
mod kind;
mod laws;
mod limits;
mod lookups;
mod making;
mod object;
mod object_list;
mod ordering;
mod permitting;
mod planned;
mod preparing;
mod properties;
mod rank;
mod refusal;
mod rule;
mod spelled;
mod splice;
mod store;
mod store_fault;
mod store_lookups;
mod targets;

pub use allowed::Allowed;
pub use change::Change;
pub use change_fault::ChangeFault;
pub use checking::are_right_values;
pub use description_fault::{DescriptionFault, DescriptionFlaw};
pub use house_objects::house;
pub use laws::{
    changes_change_one_thing, kinds_are_values, order_says_nothing, replies_can_be_sent,
    replies_fit_requests, writes_change_one_thing,
};
pub use limits::{FILE_LIMIT, FILE_SIZE, OBJECTS_LIMIT, VALUE_LIMIT};
pub use object::{File, Object, Property};
pub use planned::Planned;
pub use store::Store;
pub use store_fault::StoreFault;
pub use store_lookups::{ListedValues, stores_are_in_order};
