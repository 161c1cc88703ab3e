//! The values of a property as people write them.
ghost use Rattle.std.specs.Prelude.{IfOk};
ghost use Rattle.bac_service.specs.Views.{property_reference_view};
ghost use Rattle.bac_point_report.specs.Shown.{IsShown};

use bac_point_text::{data_alone, enumeration_of};
use bac_service::PropertyReference;
use bac_value::{Data, NoMemory};
use std::alloc::Global;

/// Values of a property alone, as people write them. An Err is out of memory.
pub fn shown(
    alloc: Global,
    reference: PropertyReference,
    values: Data<'_>,
) -> Result<Vec<u8>, NoMemory>
    ensures { IfOk result (λ t. IsShown (property_reference_view reference) values.entry.octets.now t.items) }
{
    let names = enumeration_of(reference.object.kind, reference.property);
    data_alone(alloc, names, values)
}
