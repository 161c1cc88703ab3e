//! The lines that name a service, or a message of the network layer: only in words.
ghost use Rattle.std.specs.Prelude.{◌≡◌, OnOk};
ghost use Rattle.std.specs.Option.{option_map};
ghost use Rattle.std.specs.Io.KnownBytes.{Appends};
ghost use Rattle.bac_apdu.specs.Views.{apdu_view};
ghost use Rattle.bac_npdu.specs.Views.{message_view};
ghost use Rattle.bac_text.specs.NameLines.{message_lines, name_lines, other_name, service_lines, service_name};

use crate::layers::is_service;
use crate::service_names::{
    confirmed_service_name, network_message_name, unconfirmed_service_name,
};
use bac_apdu::Apdu;
use bac_npdu::Message;
use std::io;
use std::io::Write;

/// The name of a confirmed service other than the four, whose requests and answers have lines of their own.
fn other_name(choice: u8) -> Option<&'static str>
    ensures { option_map (λ s. s.now) result ≡ other_name choice }
{
    if is_service(choice) {
        return None;
    }
    confirmed_service_name(choice)
}

/// The name of the service of an APDU, if it has one, and no line that says it.
fn service_name(apdu: Apdu<'_>) -> Option<&'static str>
    ensures { option_map (λ s. s.now) result ≡ service_name (apdu_view apdu.entry) }
{
    match apdu {
        Apdu::UnconfirmedRequest { choice, .. } => unconfirmed_service_name(choice),
        Apdu::ConfirmedRequest { choice, .. } | Apdu::ComplexAck { choice, .. } => other_name(
            choice,
        ),
        Apdu::SimpleAck { choice, .. } | Apdu::Error { choice, .. } => confirmed_service_name(
            choice,
        ),
        Apdu::SegmentAck { .. } | Apdu::Reject { .. } | Apdu::Abort { .. } => None,
    }
}

/// Prints a name behind what it is the name of.
fn print_name<W: Write>(what: &str, name: Option<&'static str>, out: &mut W) -> io::Result<()>
    ensures { OnOk result (Appends (W.contents out.old) (W.contents out.new) (name_lines what.now (option_map (λ s. s.now) name.entry))) }
{
    let Some(name) = name else {
        return Ok(());
    };
    writeln!(out, "{what} {name}")
}

/// Prints the name of the service of an APDU in words, as `service who-is`, unless it has none or a line says it.
pub(crate) fn print_service<W: Write>(in_words: bool, apdu: Apdu<'_>, out: &mut W) -> io::Result<()>
    ensures { OnOk result (Appends (W.contents out.old) (W.contents out.new) (service_lines in_words (apdu_view apdu.entry))) }
{
    if !in_words {
        return Ok(());
    }
    print_name("service", service_name(apdu), out)
}

/// Prints the name of a message of the network layer in words, as `message Who-Is-Router-To-Network`, if the standard has one.
pub(crate) fn print_message<W: Write>(
    in_words: bool,
    message: Message,
    out: &mut W,
) -> io::Result<()>
    ensures { OnOk result (Appends (W.contents out.old) (W.contents out.new) (message_lines in_words (message_view message))) }
{
    if !in_words {
        return Ok(());
    }
    print_name("message", network_message_name(message.kind), out)
}
