//! Properties whose names begin with o to p.
ghost use Rattle.std.specs.Prelude.{◌≡◌};
ghost use Rattle.bac_value_text.specs.Names.{plain};
ghost use Rattle.bac_value_text.specs.Properties.{O_TO_P};

/// Names and numbers, sorted by name.
const ROWS: &[(&str, u32)] = &[
    ("object-identifier", 75),
    ("object-list", 76),
    ("object-name", 77),
    ("object-property-reference", 78),
    ("object-type", 79),
    ("occupancy-count", 290),
    ("occupancy-count-adjust", 291),
    ("occupancy-count-enable", 292),
    ("occupancy-lower-limit", 294),
    ("occupancy-lower-limit-enforced", 295),
    ("occupancy-state", 296),
    ("occupancy-upper-limit", 297),
    ("occupancy-upper-limit-enforced", 298),
    ("operation-direction", 477),
    ("operation-expected", 161),
    ("optional", 80),
    ("out-of-service", 81),
    ("output-units", 82),
    ("passback-mode", 300),
    ("passback-timeout", 301),
    ("passenger-alarm", 478),
    ("polarity", 84),
    ("port-filter", 363),
    ("positive-access-rules", 302),
    ("power", 384),
    ("power-mode", 479),
    ("prescale", 185),
    ("present-stage", 493),
    ("present-value", 85),
    ("priority", 86),
    ("priority-array", 87),
    ("priority-for-writing", 88),
    ("process-identifier", 89),
    ("process-identifier-filter", 361),
    ("profile-location", 485),
    ("profile-name", 168),
    ("program-change", 90),
    ("program-location", 91),
    ("program-state", 92),
    ("property-list", 371),
    ("proportional-constant", 93),
    ("proportional-constant-units", 94),
    ("protocol-level", 482),
    ("protocol-object-types-supported", 96),
    ("protocol-revision", 139),
    ("protocol-services-supported", 97),
    ("protocol-version", 98),
    ("pulse-rate", 186),
];

/// Names and numbers, sorted by name.
pub(crate) fn rows() -> &'static [(&'static str, u32)]
    ensures { plain result.now ≡ O_TO_P }
{
    ROWS
}
