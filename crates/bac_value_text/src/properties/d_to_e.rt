//! Properties whose names begin with d to e.
ghost use Rattle.std.specs.Prelude.{◌≡◌};
ghost use Rattle.bac_value_text.specs.Names.{plain};
ghost use Rattle.bac_value_text.specs.Properties.{D_TO_E};

/// Names and numbers, sorted by name.
const ROWS: &[(&str, u32)] = &[
    ("database-revision", 155),
    ("date-list", 23),
    ("daylight-savings-status", 24),
    ("days-remaining", 267),
    ("deadband", 25),
    ("default-fade-time", 374),
    ("default-present-value", 492),
    ("default-ramp-rate", 375),
    ("default-step-increment", 376),
    ("default-subordinate-relationship", 490),
    ("default-timeout", 393),
    ("delete-on-forward", 502),
    ("deployed-profile-location", 484),
    ("derivative-constant", 26),
    ("derivative-constant-units", 27),
    ("description", 28),
    ("description-of-halt", 29),
    ("device-address-binding", 30),
    ("device-type", 31),
    ("device-uuid", 507),
    ("direct-reading", 156),
    ("door-alarm-state", 226),
    ("door-extended-pulse-time", 227),
    ("door-members", 228),
    ("door-open-too-long-time", 229),
    ("door-pulse-time", 230),
    ("door-status", 231),
    ("door-unlock-delay-time", 232),
    ("duty-window", 213),
    ("effective-period", 32),
    ("egress-active", 386),
    ("egress-time", 377),
    ("elapsed-active-time", 33),
    ("elevator-group", 459),
    ("enable", 133),
    ("energy-meter", 460),
    ("energy-meter-ref", 461),
    ("entry-points", 268),
    ("error-limit", 34),
    ("escalator-mode", 462),
    ("event-algorithm-inhibit", 354),
    ("event-algorithm-inhibit-ref", 355),
    ("event-detection-enable", 353),
    ("event-enable", 35),
    ("event-message-texts", 351),
    ("event-message-texts-config", 352),
    ("event-parameters", 83),
    ("event-state", 36),
    ("event-time-stamps", 130),
    ("event-type", 37),
    ("exception-schedule", 38),
    ("execution-delay", 368),
    ("exit-points", 269),
    ("expected-shed-level", 214),
    ("expiration-time", 270),
    ("extended-time-enable", 271),
];

/// Names and numbers, sorted by name.
pub(crate) fn rows() -> &'static [(&'static str, u32)]
    ensures { plain result.now ≡ D_TO_E }
{
    ROWS
}
