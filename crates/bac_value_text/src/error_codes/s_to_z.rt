//! Error codes from s to z.
ghost use Rattle.std.specs.Prelude.{◌≡◌};
ghost use Rattle.bac_value_text.specs.Names.{plain};
ghost use Rattle.bac_value_text.specs.ErrorCodes.{S_TO_Z};

/// Names and numbers, sorted by name.
const ROWS: &[(&str, u32)] = &[
    ("security-error", 114),
    ("security-not-configured", 103),
    ("security-not-supported", 28),
    ("service-request-denied", 29),
    ("source-security-required", 104),
    ("success", 84),
    ("tcp-closed-by-local", 195),
    ("tcp-closed-other", 196),
    ("tcp-connect-timeout", 193),
    ("tcp-connection-refused", 194),
    ("tcp-error", 197),
    ("timeout", 30),
    ("tls-client-authentication-failed", 182),
    ("tls-client-certificate-error", 180),
    ("tls-client-certificate-expired", 184),
    ("tls-client-certificate-revoked", 186),
    ("tls-error", 188),
    ("tls-server-authentication-failed", 183),
    ("tls-server-certificate-error", 181),
    ("tls-server-certificate-expired", 185),
    ("tls-server-certificate-revoked", 187),
    ("too-many-keys", 105),
    ("unexpected-data", 150),
    ("unknown-authentication-type", 106),
    ("unknown-device", 70),
    ("unknown-file-size", 122),
    ("unknown-key", 107),
    ("unknown-key-revision", 108),
    ("unknown-network-message", 112),
    ("unknown-object", 31),
    ("unknown-property", 32),
    ("unknown-route", 71),
    ("unknown-source-message", 109),
    ("unknown-subscription", 79),
    ("unknown-vt-class", 34),
    ("unknown-vt-session", 35),
    ("unsupported-object-type", 36),
    ("value-not-initialized", 72),
    ("value-out-of-range", 37),
    ("value-too-long", 134),
    ("vt-session-already-closed", 38),
    ("vt-session-termination-failure", 39),
    ("websocket-close-error", 168),
    ("websocket-closed-abnormally", 173),
    ("websocket-closed-by-peer", 169),
    ("websocket-data-against-policy", 175),
    ("websocket-data-inconsistent", 174),
    ("websocket-data-not-accepted", 172),
    ("websocket-endpoint-leaves", 170),
    ("websocket-error", 179),
    ("websocket-extension-missing", 177),
    ("websocket-frame-too-long", 176),
    ("websocket-protocol-error", 171),
    ("websocket-request-unavailable", 178),
    ("websocket-scheme-not-supported", 166),
    ("websocket-unknown-control-message", 167),
    ("write-access-denied", 40),
    ("write-bdt-failed", 116),
];

/// Names and numbers, sorted by name.
pub(crate) fn rows() -> &'static [(&'static str, u32)]
    ensures { plain result.now ≡ S_TO_Z }
{
    ROWS
}
