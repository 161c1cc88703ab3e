//! Which enumeration a property has, by its own name and in part by the type of its object.
ghost use Rattle.std.specs.Prelude.{◌≡◌};
ghost use Rattle.std.specs.List.{find};
ghost use Rattle.std.specs.Option.{option_map};
ghost use Rattle.std.specs.Str.Lines.{lines};
ghost use Rattle.bac_point_text.specs.PropertyNames.{is_scope, is_for, type_word, LINES, enumeration_of};
ghost use Rattle.bac_point_text.specs.Views.{names_view};

use crate::enumeration::Enumeration;
use crate::lines::{behind, front};
use bac_value_text::{object_type_name, property_name};

/// A line `TYPE PROPERTY ENUMERATION` for each property whose values have names; the type is `any` where that of the object does not matter.
const PROPERTIES: &str = "\
any accepted-modes life-safety-mode
any access-event access-event
any ack-required event-transition-bits
any acked-transitions event-transition-bits
loop action action
access-door alarm-values door-alarm-state
binary-input alarm-value binary-pv
binary-value alarm-value binary-pv
life-safety-point alarm-values life-safety-state
life-safety-zone alarm-values life-safety-state
timer alarm-values timer-state
any audit-level audit-level
any audit-priority-filter priority-filter
any auditable-operations audit-operation-flags
any authentication-status authentication-status
any authorization-exemptions authorization-exemption
any authorization-mode authorization-mode
any backup-and-restore-state backup-state
any bacnet-ip-mode ip-mode
any bacnet-ipv6-mode ip-mode
any car-assigned-direction lift-car-direction
any car-door-command lift-car-door-command
any car-door-status door-status
any car-drive-status lift-car-drive-status
any car-load-units engineering-units
any car-mode lift-car-mode
any car-moving-direction lift-car-direction
network-port command network-port-command
any controlled-variable-units engineering-units
any credential-disable access-credential-disable
any credential-status binary-pv
any default-subordinate-relationship relationship
any derivative-constant-units engineering-units
any door-alarm-state door-alarm-state
any door-status door-status
any escalator-mode escalator-mode
any event-enable event-transition-bits
any event-state event-state
any event-type event-type
access-door fault-values door-alarm-state
life-safety-point fault-values life-safety-state
life-safety-zone fault-values life-safety-state
escalator fault-signals escalator-fault
lift fault-signals lift-fault
any fault-type fault-type
binary-lighting-output feedback-value binary-lighting-pv
binary-output feedback-value binary-pv
any file-access-method file-access-method
any group-mode lift-group-mode
any in-progress lighting-in-progress
any integral-constant-units engineering-units
any last-restart-reason restart-reason
any last-state-change timer-transition
any life-safety-alarm-values life-safety-state
any limit-enable limit-enable
any lock-status lock-status
any logging-type logging-type
any maintenance-required maintenance
any masked-alarm-values door-alarm-state
any mode life-safety-mode
any network-number-quality network-number-quality
any network-type network-type
any node-type node-type
any notify-type notify-type
any object-type object-type
any occupancy-state access-zone-occupancy-state
any operation-direction escalator-operation-direction
any operation-expected life-safety-operation
any output-units engineering-units
any passback-mode access-passback-mode
any polarity polarity
access-door present-value door-value
binary-input present-value binary-pv
binary-lighting-output present-value binary-lighting-pv
binary-output present-value binary-pv
binary-value present-value binary-pv
life-safety-point present-value life-safety-state
life-safety-zone present-value life-safety-state
load-control present-value shed-state
any program-change program-request
any program-state program-state
any property-list property-identifier
any proportional-constant-units engineering-units
any protocol-level protocol-level
any protocol-object-types-supported object-type
any protocol-services-supported services-supported
any reason-for-disable access-credential-disable-reason
any reason-for-halt program-error
any reliability reliability
access-door relinquish-default door-value
binary-lighting-output relinquish-default binary-lighting-pv
binary-output relinquish-default binary-pv
binary-value relinquish-default binary-pv
any secured-status door-secured-status
any segmentation-supported segmentation
any silenced silenced-state
any status-flags status-flags
any subordinate-node-types node-type
any subordinate-relationships relationship
any system-status device-status
any timer-state timer-state
any tracking-value life-safety-state
any transition lighting-transition
any units engineering-units
any user-type access-user-type
any write-status write-status
";

/// Whether the first word of a line is for objects of this type.
fn is_scope(word: &str, kind: &str) -> bool
    ensures { result ≡ is_scope kind.now word.now }
{
    word == "any" || word == kind
}

/// Whether a line is for this property of objects of this type.
fn is_for(line: &str, kind: &str, property: &str) -> bool
    ensures { result ≡ is_for kind.now property.now line.now }
{
    is_scope(front(line), kind) && front(behind(line)) == property
}

/// The line for a property, in a table of such lines.
fn line_for<'t>(table: &'t str, kind: &str, property: &str) -> Option<&'t str>
    ensures { option_map (λ l. l.now) result ≡ find (is_for kind.now property.now) (lines table.now) }
{
    table.lines().find(|line| is_for(line, kind, property))
}

/// The lines of all properties.
fn properties() -> &'static str
    ensures { lines result.now ≡ LINES }
{
    PROPERTIES
}

/// The name of an object type; nothing for a type that has none.
fn type_word(kind: u16) -> &'static str
    ensures { result.now ≡ type_word kind }
{
    object_type_name(u32::from(kind)).unwrap_or("")
}

/// The enumeration whose names the values of a property have, in an object of this type; of a bit string the names of its bits. None where the
/// standard names no values of the property, or where it lets a vendor choose them.
pub fn enumeration_of(object_type: u16, property: u32) -> Option<Enumeration>
    ensures { option_map names_view result ≡ enumeration_of object_type property }
{
    let property = property_name(property)?;
    let line = line_for(properties(), type_word(object_type), property)?;
    Enumeration::named(behind(behind(line)))
}
