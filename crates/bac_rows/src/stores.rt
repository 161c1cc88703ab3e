//! Stores of rows.
use bac_store::{Allowed, Object, Property, Store};
use bac_value::{ObjectIdentifier, read_data};
use std::alloc::Global;

/// The store of one object without a name, with one property that the network may not write.
///
/// None where the octets are not data, where a store can't have that object with that property, and where memory is refused.
pub fn store_of(alloc: Global, id: ObjectIdentifier, number: u32, octets: &[u8]) -> Option<Store> {
    let values = read_data(octets).ok()?.0.to_owned(alloc).ok()?;
    let mut properties = Vec::new(alloc);
    let property = Property {
        number,
        values,
        writable: false,
        allowed: Allowed::Any,
    };
    properties.push(property).ok()?;
    let object = Object {
        id,
        name: String::new(alloc),
        properties,
        file: None,
    };
    let mut objects = Vec::new(alloc);
    objects.push(object).ok()?;
    Store::new(alloc, objects).ok()
}
