//! What is told of an ask that failed, beside why.
ghost use Rattle.std.specs.Prelude.{◌≡◌, ◌==◌, IfOk};
ghost use Rattle.std.specs.List.{list_any};
ghost use Rattle.bac_ask_report.specs.Records.{outcome_view};
ghost use Rattle.bac_service.specs.Views.{property_reference_view};
ghost use Rattle.bac_point_report.specs.Advice.{WITHOUT_VALUE, advice_line, has_no_value, is_without_value, is_refused};

use crate::points::is_absent;
use bac_ask_report::Outcome;
use bac_service::PropertyReference;
use bac_value_text::object_text;
use std::alloc::{AllocError, Global};

/// The property present-value (clause 21).
const PRESENT_VALUE: u32 = 85;

/// The types of objects that have no present-value (clause 12): device, event-enrollment, file, notification-class, program, averaging, trend-log,
/// event-log, trend-log-multiple, structured-view, access-credential, access-point, access-rights, access-user, access-zone, network-security,
/// notification-forwarder, network-port, elevator-group, escalator, lift, audit-log and audit-reporter.
const WITHOUT_VALUE: [u16; 23] = [
    8, 9, 10, 15, 16, 18, 20, 25, 27, 29, 32, 33, 34, 35, 36, 38, 51, 56, 57, 58, 59, 61, 62,
];

/// What stands behind an object whose present-value was asked for, and that has none.
const ADVICE: &[u8] = b" has no present-value; name another property, for example object-name\n";

/// Whether objects of a type have no present-value.
#[tactic(auto, unfolding(crate::specs::Advice::is_without_value))]
fn is_without_value(kind: u16) -> bool
    ensures { result ≡ is_without_value kind }
{
    WITHOUT_VALUE.iter().any(|other| *other == kind)
}

/// Whether the present-value of an object was asked for, and objects of its type have none.
#[tactic(auto, unfolding(crate::specs::Advice::has_no_value))]
fn has_no_value(reference: PropertyReference, outcome: Outcome<'_>) -> bool
    ensures { result ≡ has_no_value (property_reference_view reference) (outcome_view outcome.entry) }
{
    reference.property == PRESENT_VALUE
        && is_without_value(reference.object.kind)
        && is_absent(outcome)
}

/// What to read of an object in place of its present-value, where it has none; otherwise nothing.
pub(crate) fn advice_line(
    alloc: Global,
    reference: PropertyReference,
    outcome: Outcome<'_>,
) -> Result<Vec<u8>, AllocError>
    ensures { IfOk result (λ t. t.items ≡ advice_line (property_reference_view reference) (outcome_view outcome.entry)) }
{
    if !has_no_value(reference, outcome) {
        return Ok(Vec::new(alloc));
    }
    let mut line = object_text(alloc, reference.object)?;
    line.extend_from_slice(ADVICE)?;
    Ok(line)
}

/// Whether a request was aborted for another reason than those that the standard names, as a server does that waits after a restart, or has no room.
pub fn is_refused(outcome: Outcome<'_>) -> bool
    ensures { result ≡ is_refused (outcome_view outcome.entry) }
{
    match outcome {
        Outcome::Aborted(reason) => reason == 0,
        Outcome::Answered(_) => false,
        Outcome::Rejected(_) => false,
        Outcome::TimedOut => false,
        Outcome::Expired => false,
        Outcome::Refused(_) => false,
        Outcome::NoEnding => false,
        Outcome::NoLink => false,
    }
}
