//! Properties whose names begin with r to s.
ghost use Rattle.std.specs.Prelude.{◌≡◌};
ghost use Rattle.bac_value_text.specs.Names.{plain};
ghost use Rattle.bac_value_text.specs.Properties.{R_TO_S};

/// Names and numbers, sorted by name.
const ROWS: &[(&str, u32)] = &[
    ("read-only", 99),
    ("reason-for-disable", 303),
    ("reason-for-halt", 100),
    ("recipient-list", 102),
    ("record-count", 141),
    ("records-since-notification", 140),
    ("reference-port", 483),
    ("registered-car-call", 480),
    ("reliability", 103),
    ("reliability-evaluation-inhibit", 357),
    ("relinquish-default", 104),
    ("represents", 491),
    ("requested-shed-level", 218),
    ("requested-update-interval", 348),
    ("required", 105),
    ("resolution", 106),
    ("restart-notification-recipients", 202),
    ("restore-completion-time", 340),
    ("restore-preparation-time", 341),
    ("routing-table", 428),
    ("scale", 187),
    ("scale-factor", 188),
    ("schedule-default", 174),
    ("secured-status", 235),
    ("segmentation-supported", 107),
    ("send-now", 505),
    ("serial-number", 372),
    ("setpoint", 108),
    ("setpoint-reference", 109),
    ("setting", 162),
    ("shed-duration", 219),
    ("shed-level-descriptions", 220),
    ("shed-levels", 221),
    ("silenced", 163),
    ("slave-address-binding", 171),
    ("slave-proxy-enable", 172),
    ("stage-names", 495),
    ("stages", 494),
    ("start-time", 142),
    ("state-change-values", 396),
    ("state-description", 222),
    ("state-text", 110),
    ("status-flags", 111),
    ("stop-time", 143),
    ("stop-when-full", 144),
    ("strike-count", 391),
    ("structured-object-list", 209),
    ("subordinate-annotations", 210),
    ("subordinate-list", 211),
    ("subordinate-node-types", 487),
    ("subordinate-relationships", 489),
    ("subordinate-tags", 488),
    ("subscribed-recipients", 362),
    ("supported-format-classes", 305),
    ("supported-formats", 304),
    ("system-status", 112),
];

/// Names and numbers, sorted by name.
pub(crate) fn rows() -> &'static [(&'static str, u32)]
    ensures { plain result.now ≡ R_TO_S }
{
    ROWS
}
