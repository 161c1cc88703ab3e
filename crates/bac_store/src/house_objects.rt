//! The example store of a house.
ghost use Rattle.std.specs.Prelude.{◌≡◌, List, ℕ, IfOk};
ghost use Rattle.bac_value.specs.Value.{Datum};
ghost use Rattle.bac_value.specs.Views.{value_view};
ghost use Rattle.bac_value.specs.Writing.{value_spelling};
ghost use Rattle.bac_store.specs.House.{flow as flow_view, house as house_view, house_device, log as log_view, pump as pump_view, setpoint as setpoint_view};
ghost use Rattle.bac_store.specs.Allowing.{Allowed};
ghost use Rattle.bac_store.specs.Kinds.{kind_of};
ghost use Rattle.bac_store.specs.Views.{object_view, property_view};

use crate::allowed::Allowed as Limits;
use crate::limits::{
    ANALOG_INPUT, ANALOG_VALUE, BINARY_VALUE, DESCRIPTION, DEVICE, FILE, PRESENT_VALUE,
};
use crate::object::{File, Object, Property};
use crate::spelled::spelled;
use crate::store::Store;
use bac_value::{CharacterString, NoMemory, ObjectIdentifier, Value};
use std::alloc::Global;

/// A property with one application value.
fn listed(alloc: Global, number: u32, value: &Value, writable: bool) -> Result<Property, NoMemory>
    ensures { IfOk result (λ p. property_view p
        ≡ record {
          number = number;
          values = value_spelling (value_view value.now);
          writable = writable;
          kind = kind_of (value_spelling (value_view value.now));
          allowed = Allowed.Any;
        }) }
{
    let values = spelled(alloc, value)?;
    Ok(Property {
        number,
        values,
        writable,
        allowed: Limits::Any,
    })
}

/// Analog-input 5, a reading of 72.3 that no request can set.
fn flow(alloc: Global) -> Result<Object, NoMemory>
    ensures { IfOk result (λ o. object_view o ≡ flow_view) }
{
    let value = Value::Real([0x42, 0x90, 0x99, 0x9A]);
    let mut properties = Vec::new(alloc);
    properties.push(listed(alloc, PRESENT_VALUE, &value, false)?)?;
    Ok(Object {
        id: ObjectIdentifier {
            kind: ANALOG_INPUT,
            instance: 5,
        },
        name: String::from_str(alloc, "flow")?,
        properties,
        file: None,
    })
}

/// Analog-value 1, at 0.0, with an empty description; requests can set both.
fn setpoint(alloc: Global) -> Result<Object, NoMemory>
    ensures { IfOk result (λ o. object_view o ≡ setpoint_view) }
{
    let text = Vec::new(alloc);
    let description = Value::CharacterString(CharacterString { set: 0, text });
    let value = Value::Real([0; 4]);
    let mut properties = Vec::new(alloc);
    properties.push(listed(alloc, DESCRIPTION, &description, true)?)?;
    properties.push(listed(alloc, PRESENT_VALUE, &value, true)?)?;
    Ok(Object {
        id: ObjectIdentifier {
            kind: ANALOG_VALUE,
            instance: 1,
        },
        name: String::from_str(alloc, "setpoint")?,
        properties,
        file: None,
    })
}

/// Binary-value 1, inactive (0); requests can set it.
fn pump(alloc: Global) -> Result<Object, NoMemory>
    ensures { IfOk result (λ o. object_view o ≡ pump_view) }
{
    let value = Value::Enumerated(0);
    let mut properties = Vec::new(alloc);
    properties.push(listed(alloc, PRESENT_VALUE, &value, true)?)?;
    Ok(Object {
        id: ObjectIdentifier {
            kind: BINARY_VALUE,
            instance: 1,
        },
        name: String::from_str(alloc, "pump")?,
        properties,
        file: None,
    })
}

/// Device 1, the house itself.
fn device(alloc: Global) -> Result<Object, NoMemory>
    ensures { IfOk result (λ o. object_view o ≡ house_device) }
{
    Ok(Object {
        id: ObjectIdentifier {
            kind: DEVICE,
            instance: 1,
        },
        name: String::from_str(alloc, "house")?,
        properties: Vec::new(alloc),
        file: None,
    })
}

/// File 1, with two octets; requests can write it.
fn log(alloc: Global) -> Result<Object, NoMemory>
    ensures { IfOk result (λ o. object_view o ≡ log_view) }
{
    let octets = Vec::from_slice(alloc, b"OK")?;
    let writable = true;
    Ok(Object {
        id: ObjectIdentifier {
            kind: FILE,
            instance: 1,
        },
        name: String::from_str(alloc, "log")?,
        properties: Vec::new(alloc),
        file: Some(File { octets, writable }),
    })
}

/// The example store: device 1 `house`, analog-input 5 `flow`, analog-value 1 `setpoint`, binary-value 1 `pump` and file 1 `log`. Returns
/// `NoMemory` if an allocation fails.
pub fn house(alloc: Global) -> Result<Store, NoMemory>
    ensures { IfOk result (λ s. s ≡ house_view) }
{
    let mut objects = Vec::with_capacity(alloc, 5)?;
    objects.push(flow(alloc)?)?;
    objects.push(setpoint(alloc)?)?;
    objects.push(pump(alloc)?)?;
    objects.push(device(alloc)?)?;
    objects.push(log(alloc)?)?;
    Store::of_ordered(alloc, objects)
}
