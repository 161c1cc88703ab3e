//! Properties whose names begin with m to n.
ghost use Rattle.std.specs.Prelude.{◌≡◌};
ghost use Rattle.bac_value_text.specs.Names.{plain};
ghost use Rattle.bac_value_text.specs.Properties.{M_TO_N};

/// Names and numbers, sorted by name.
const ROWS: &[(&str, u32)] = &[
    ("mac-address", 423),
    ("machine-room-id", 474),
    ("maintenance-required", 158),
    ("making-car-call", 475),
    ("manipulated-variable-reference", 60),
    ("manual-slave-address-binding", 170),
    ("masked-alarm-values", 234),
    ("max-actual-value", 382),
    ("max-apdu-length-accepted", 62),
    ("max-failed-attempts", 285),
    ("max-info-frames", 63),
    ("max-master", 64),
    ("max-pres-value", 65),
    ("max-segments-accepted", 167),
    ("maximum-output", 61),
    ("maximum-send-delay", 503),
    ("maximum-value", 135),
    ("maximum-value-timestamp", 149),
    ("member-of", 159),
    ("member-status-flags", 347),
    ("members", 286),
    ("min-actual-value", 383),
    ("min-pres-value", 69),
    ("minimum-off-time", 66),
    ("minimum-on-time", 67),
    ("minimum-output", 68),
    ("minimum-value", 136),
    ("minimum-value-timestamp", 150),
    ("mode", 160),
    ("model-name", 70),
    ("modification-date", 71),
    ("monitored-objects", 504),
    ("muster-point", 287),
    ("negative-access-rules", 288),
    ("network-interface-name", 424),
    ("network-number", 425),
    ("network-number-quality", 426),
    ("network-type", 427),
    ("next-stopping-floor", 476),
    ("node-subtype", 207),
    ("node-type", 208),
    ("notification-class", 17),
    ("notification-threshold", 137),
    ("notify-type", 72),
    ("number-of-apdu-retries", 73),
    ("number-of-authentication-policies", 289),
    ("number-of-states", 74),
];

/// Names and numbers, sorted by name.
pub(crate) fn rows() -> &'static [(&'static str, u32)]
    ensures { plain result.now ≡ M_TO_N }
{
    ROWS
}
