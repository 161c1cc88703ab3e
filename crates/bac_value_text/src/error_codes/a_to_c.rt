//! Error codes from a to c.
ghost use Rattle.std.specs.Prelude.{◌≡◌};
ghost use Rattle.bac_value_text.specs.Names.{plain};
ghost use Rattle.bac_value_text.specs.ErrorCodes.{A_TO_C};

/// Names and numbers, sorted by name.
const ROWS: &[(&str, u32)] = &[
    ("abort-apdu-too-long", 123),
    ("abort-application-exceeded-reply-time", 124),
    ("abort-buffer-overflow", 51),
    ("abort-insufficient-security", 135),
    ("abort-invalid-apdu-in-this-state", 52),
    ("abort-other", 56),
    ("abort-out-of-resources", 125),
    ("abort-preempted-by-higher-priority-task", 53),
    ("abort-proprietary", 55),
    ("abort-security-error", 136),
    ("abort-segmentation-not-supported", 54),
    ("abort-tsm-timeout", 126),
    ("abort-window-size-out-of-range", 127),
    ("access-denied", 85),
    ("addressing-error", 115),
    ("authentication-failed", 1),
    ("bad-destination-address", 86),
    ("bad-destination-device-id", 87),
    ("bad-signature", 88),
    ("bad-source-address", 89),
    ("bad-timestamp", 90),
    ("busy", 82),
    ("bvlc-function-unknown", 143),
    ("bvlc-proprietary-function-unknown", 144),
    ("cannot-use-key", 91),
    ("cannot-verify-message-id", 92),
    ("character-set-not-supported", 41),
    ("communication-disabled", 83),
    ("configuration-in-progress", 2),
    ("correct-key-revision", 93),
    ("cov-subscription-failed", 43),
];

/// Names and numbers, sorted by name.
pub(crate) fn rows() -> &'static [(&'static str, u32)]
    ensures { plain result.now ≡ A_TO_C }
{
    ROWS
}
