//! The services and the messages of the network layer by number.
ghost use Rattle.std.specs.Prelude.{◌≡◌};
ghost use Rattle.std.specs.Option.{option_map};
ghost use Rattle.bac_value_text.specs.Names.{name_in as name_of, plain};
ghost use Rattle.bac_text.specs.ServiceNames.{CONFIRMED_SERVICES, NETWORK_MESSAGES, UNCONFIRMED_SERVICES};

/// The confirmed services (BACnetConfirmedServiceChoice), with those that the standard has removed since (13, 24 and 25).
const CONFIRMED: &[(&str, u32)] = &[
    ("acknowledge-alarm", 0),
    ("confirmed-cov-notification", 1),
    ("confirmed-event-notification", 2),
    ("get-alarm-summary", 3),
    ("get-enrollment-summary", 4),
    ("subscribe-cov", 5),
    ("atomic-read-file", 6),
    ("atomic-write-file", 7),
    ("add-list-element", 8),
    ("remove-list-element", 9),
    ("create-object", 10),
    ("delete-object", 11),
    ("read-property", 12),
    ("read-property-conditional", 13),
    ("read-property-multiple", 14),
    ("write-property", 15),
    ("write-property-multiple", 16),
    ("device-communication-control", 17),
    ("confirmed-private-transfer", 18),
    ("confirmed-text-message", 19),
    ("reinitialize-device", 20),
    ("vt-open", 21),
    ("vt-close", 22),
    ("vt-data", 23),
    ("authenticate", 24),
    ("request-key", 25),
    ("read-range", 26),
    ("life-safety-operation", 27),
    ("subscribe-cov-property", 28),
    ("get-event-information", 29),
    ("subscribe-cov-property-multiple", 30),
    ("confirmed-cov-notification-multiple", 31),
    ("confirmed-audit-notification", 32),
    ("audit-log-query", 33),
];

/// The unconfirmed services (BACnetUnconfirmedServiceChoice).
const UNCONFIRMED: &[(&str, u32)] = &[
    ("i-am", 0),
    ("i-have", 1),
    ("unconfirmed-cov-notification", 2),
    ("unconfirmed-event-notification", 3),
    ("unconfirmed-private-transfer", 4),
    ("unconfirmed-text-message", 5),
    ("time-synchronization", 6),
    ("who-has", 7),
    ("who-is", 8),
    ("utc-time-synchronization", 9),
    ("write-group", 10),
    ("unconfirmed-cov-notification-multiple", 11),
    ("unconfirmed-audit-notification", 12),
    ("who-am-i", 13),
    ("you-are", 14),
];

/// The messages of the network layer (clause 6.2.4).
const MESSAGES: &[(&str, u32)] = &[
    ("Who-Is-Router-To-Network", 0x00),
    ("I-Am-Router-To-Network", 0x01),
    ("I-Could-Be-Router-To-Network", 0x02),
    ("Reject-Message-To-Network", 0x03),
    ("Router-Busy-To-Network", 0x04),
    ("Router-Available-To-Network", 0x05),
    ("Initialize-Routing-Table", 0x06),
    ("Initialize-Routing-Table-Ack", 0x07),
    ("Establish-Connection-To-Network", 0x08),
    ("Disconnect-Connection-To-Network", 0x09),
    ("Challenge-Request", 0x0A),
    ("Security-Payload", 0x0B),
    ("Security-Response", 0x0C),
    ("Request-Key-Update", 0x0D),
    ("Update-Key-Set", 0x0E),
    ("Update-Distribution-Key", 0x0F),
    ("Request-Master-Key", 0x10),
    ("Set-Master-Key", 0x11),
    ("What-Is-Network-Number", 0x12),
    ("Network-Number-Is", 0x13),
];

fn confirmed() -> &'static [(&'static str, u32)]
    ensures { plain result.now ≡ CONFIRMED_SERVICES }
{
    CONFIRMED
}

fn unconfirmed() -> &'static [(&'static str, u32)]
    ensures { plain result.now ≡ UNCONFIRMED_SERVICES }
{
    UNCONFIRMED
}

fn messages() -> &'static [(&'static str, u32)]
    ensures { plain result.now ≡ NETWORK_MESSAGES }
{
    MESSAGES
}

/// The name of a number.
#[tactic(auto, using(crate::proofs::Looking::name_next))]
fn name_in(rows: &[(&'static str, u32)], number: u32) -> Option<&'static str>
    ensures { option_map (λ s. s.now) result ≡ name_of (plain rows.now) number }
{
    for row in rows {
        if row.1 == number {
            return Some(row.0);
        }
    }
    None
}

/// The name of a confirmed service; None if no edition of the standard has one with this number.
pub fn confirmed_service_name(choice: u8) -> Option<&'static str>
    ensures { option_map (λ s. s.now) result ≡ name_of CONFIRMED_SERVICES choice }
{
    name_in(confirmed(), u32::from(choice))
}

/// The name of an unconfirmed service; None if the standard has none with this number.
pub fn unconfirmed_service_name(choice: u8) -> Option<&'static str>
    ensures { option_map (λ s. s.now) result ≡ name_of UNCONFIRMED_SERVICES choice }
{
    name_in(unconfirmed(), u32::from(choice))
}

/// The name of a message of the network layer; None if the standard has none with this number.
pub fn network_message_name(kind: u8) -> Option<&'static str>
    ensures { option_map (λ s. s.now) result ≡ name_of NETWORK_MESSAGES kind }
{
    name_in(messages(), u32::from(kind))
}
