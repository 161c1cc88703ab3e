//! Error codes from l to r.
ghost use Rattle.std.specs.Prelude.{◌≡◌};
ghost use Rattle.bac_value_text.specs.Names.{plain};
ghost use Rattle.bac_value_text.specs.ErrorCodes.{L_TO_R};

/// Names and numbers, sorted by name.
const ROWS: &[(&str, u32)] = &[
    ("list-element-not-found", 81),
    ("list-item-not-numbered", 140),
    ("list-item-not-timestamped", 141),
    ("log-buffer-full", 75),
    ("logged-value-purged", 76),
    ("malformed-message", 101),
    ("message-incomplete", 147),
    ("message-too-long", 113),
    ("missing-required-parameter", 16),
    ("network-down", 58),
    ("no-alarm-configured", 74),
    ("no-objects-of-specified-type", 17),
    ("no-property-specified", 77),
    ("no-space-for-object", 18),
    ("no-space-to-add-list-element", 19),
    ("no-space-to-write-property", 20),
    ("no-vt-sessions-available", 21),
    ("node-duplicate-vmac", 151),
    ("not-a-bacnet-sc-hub", 148),
    ("not-configured", 132),
    ("not-configured-for-triggered-logging", 78),
    ("not-cov-property", 44),
    ("not-key-server", 102),
    ("not-router-to-dnet", 110),
    ("object-deletion-not-permitted", 23),
    ("object-identifier-already-exists", 24),
    ("operational-problem", 25),
    ("optional-functionality-not-supported", 45),
    ("other", 0),
    ("out-of-memory", 133),
    ("parameter-out-of-range", 80),
    ("password-failure", 26),
    ("payload-expected", 149),
    ("property-is-not-a-list", 22),
    ("property-is-not-an-array", 50),
    ("read-access-denied", 27),
    ("read-bdt-failed", 117),
    ("read-fdt-failed", 119),
    ("register-foreign-device-failed", 118),
    ("reject-buffer-overflow", 59),
    ("reject-inconsistent-parameters", 60),
    ("reject-invalid-parameter-data-type", 61),
    ("reject-invalid-tag", 62),
    ("reject-missing-required-parameter", 63),
    ("reject-other", 69),
    ("reject-parameter-out-of-range", 64),
    ("reject-proprietary", 68),
    ("reject-too-many-arguments", 65),
    ("reject-undefined-enumeration", 66),
    ("reject-unrecognized-service", 67),
    ("router-busy", 111),
];

/// Names and numbers, sorted by name.
pub(crate) fn rows() -> &'static [(&'static str, u32)]
    ensures { plain result.now ≡ L_TO_R }
{
    ROWS
}
