//! Properties whose names begin with c.
ghost use Rattle.std.specs.Prelude.{◌≡◌};
ghost use Rattle.bac_value_text.specs.Names.{plain};
ghost use Rattle.bac_value_text.specs.Properties.{C};

/// Names and numbers, sorted by name.
const ROWS: &[(&str, u32)] = &[
    ("car-assigned-direction", 448),
    ("car-door-command", 449),
    ("car-door-status", 450),
    ("car-door-text", 451),
    ("car-door-zone", 452),
    ("car-drive-status", 453),
    ("car-load", 454),
    ("car-load-units", 455),
    ("car-mode", 456),
    ("car-moving-direction", 457),
    ("car-position", 458),
    ("change-of-state-count", 15),
    ("change-of-state-time", 16),
    ("changes-pending", 416),
    ("channel-number", 366),
    ("client-cov-increment", 127),
    ("command", 417),
    ("command-time-array", 430),
    ("configuration-files", 154),
    ("control-groups", 367),
    ("controlled-variable-reference", 19),
    ("controlled-variable-units", 20),
    ("controlled-variable-value", 21),
    ("count", 177),
    ("count-before-change", 178),
    ("count-change-time", 179),
    ("cov-increment", 22),
    ("cov-period", 180),
    ("cov-resubscription-interval", 128),
    ("covu-period", 349),
    ("covu-recipients", 350),
    ("credential-disable", 263),
    ("credential-status", 264),
    ("credentials", 265),
    ("credentials-in-zone", 266),
    ("current-command-priority", 431),
];

/// Names and numbers, sorted by name.
pub(crate) fn rows() -> &'static [(&'static str, u32)]
    ensures { plain result.now ≡ C }
{
    ROWS
}
