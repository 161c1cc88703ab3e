//! Error codes from d to k.
ghost use Rattle.std.specs.Prelude.{◌≡◌};
ghost use Rattle.bac_value_text.specs.Names.{plain};
ghost use Rattle.bac_value_text.specs.ErrorCodes.{D_TO_K};

/// Names and numbers, sorted by name.
const ROWS: &[(&str, u32)] = &[
    ("datatype-not-supported", 47),
    ("delete-fdt-entry-failed", 120),
    ("destination-device-id-required", 94),
    ("device-busy", 3),
    ("distribute-broadcast-failed", 121),
    ("dns-error", 192),
    ("dns-name-resolution-failed", 190),
    ("dns-resolver-failure", 191),
    ("dns-unavailable", 189),
    ("duplicate-entry", 137),
    ("duplicate-message", 95),
    ("duplicate-name", 48),
    ("duplicate-object-id", 49),
    ("dynamic-creation-not-supported", 4),
    ("encryption-not-configured", 96),
    ("encryption-required", 97),
    ("file-access-denied", 5),
    ("file-full", 128),
    ("header-encoding-error", 145),
    ("header-not-understood", 146),
    ("http-error", 165),
    ("http-no-upgrade", 153),
    ("http-not-a-server", 164),
    ("http-proxy-authentication-failed", 155),
    ("http-resource-not-local", 154),
    ("http-response-missing-header", 159),
    ("http-response-syntax-error", 157),
    ("http-response-timeout", 156),
    ("http-response-value-error", 158),
    ("http-temporary-unavailable", 163),
    ("http-unexpected-response-code", 152),
    ("http-upgrade-error", 162),
    ("http-upgrade-required", 161),
    ("http-websocket-header-error", 160),
    ("incompatible-security-levels", 6),
    ("inconsistent-configuration", 129),
    ("inconsistent-object-type", 130),
    ("inconsistent-parameters", 7),
    ("inconsistent-selection-criterion", 8),
    ("incorrect-key", 98),
    ("internal-error", 131),
    ("invalid-array-index", 42),
    ("invalid-configuration-data", 46),
    ("invalid-data-encoding", 142),
    ("invalid-data-type", 9),
    ("invalid-event-state", 73),
    ("invalid-file-access-method", 10),
    ("invalid-file-start-position", 11),
    ("invalid-key-data", 99),
    ("invalid-operation-in-this-state", 139),
    ("invalid-operator-name", 12),
    ("invalid-parameter-data-type", 13),
    ("invalid-tag", 57),
    ("invalid-timestamp", 14),
    ("invalid-value-in-this-state", 138),
    ("ip-address-not-reachable", 198),
    ("ip-error", 199),
    ("key-generation-error", 15),
    ("key-update-in-progress", 100),
];

/// Names and numbers, sorted by name.
pub(crate) fn rows() -> &'static [(&'static str, u32)]
    ensures { plain result.now ≡ D_TO_K }
{
    ROWS
}
