//! Properties whose names begin with t to z.
ghost use Rattle.std.specs.Prelude.{◌≡◌};
ghost use Rattle.bac_value_text.specs.Names.{plain};
ghost use Rattle.bac_value_text.specs.Properties.{T_TO_Z};

/// Names and numbers, sorted by name.
const ROWS: &[(&str, u32)] = &[
    ("tags", 486),
    ("target-references", 496),
    ("threat-authority", 306),
    ("threat-level", 307),
    ("time-delay", 113),
    ("time-delay-normal", 356),
    ("time-of-active-time-reset", 114),
    ("time-of-device-restart", 203),
    ("time-of-state-count-reset", 115),
    ("time-of-strike-count-reset", 392),
    ("time-synchronization-interval", 204),
    ("time-synchronization-recipients", 116),
    ("timer-running", 397),
    ("timer-state", 398),
    ("total-record-count", 145),
    ("trace-flag", 308),
    ("tracking-value", 164),
    ("transaction-notification-class", 309),
    ("transition", 385),
    ("trigger", 205),
    ("units", 117),
    ("update-interval", 118),
    ("update-time", 189),
    ("user-external-identifier", 310),
    ("user-information-reference", 311),
    ("user-name", 317),
    ("user-type", 318),
    ("uses-remaining", 319),
    ("utc-offset", 119),
    ("utc-time-synchronization-recipients", 206),
    ("valid-samples", 146),
    ("value-before-change", 190),
    ("value-change-time", 192),
    ("value-set", 191),
    ("value-source", 433),
    ("value-source-array", 434),
    ("variance-value", 151),
    ("vendor-identifier", 120),
    ("vendor-name", 121),
    ("verification-time", 326),
    ("virtual-mac-address-table", 429),
    ("vt-classes-supported", 122),
    ("weekly-schedule", 123),
    ("window-interval", 147),
    ("window-samples", 148),
    ("write-status", 370),
    ("zone-from", 320),
    ("zone-members", 165),
    ("zone-to", 321),
];

/// Names and numbers, sorted by name.
pub(crate) fn rows() -> &'static [(&'static str, u32)]
    ensures { plain result.now ≡ T_TO_Z }
{
    ROWS
}
