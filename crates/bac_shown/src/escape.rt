//! Escapes.
ghost use Rattle.std.specs.Prelude.{◌≡◌, ◌++◌, ◌<◌, OnOk, flat_map};
ghost use Rattle.std.specs.Fmt.{digit_glyph};
ghost use Rattle.bac_shown.specs.Escapes.{escaped, json_pair, octet_text, unit_text};

use crate::form::Form;
use std::io;
use std::io::Write;

/// A hexadecimal digit.
fn digit(is_upper: bool, value: u32) -> u8
    requires { value < 16 }
    ensures { result ≡ digit_glyph is_upper value }
{
    let value = value as u8;
    if value < 10 {
        48 + value
    } else if is_upper {
        55 + value
    } else {
        87 + value
    }
}

/// A unit of UTF-16, escaped as in JSON.
fn unit_text(unit: u32) -> [u8; 6]
    requires { unit < 65536 }
    ensures { result ≡ unit_text unit }
{
    [
        b'\\',
        b'u',
        digit(false, unit / 4096),
        digit(false, unit / 256 % 16),
        digit(false, unit / 16 % 16),
        digit(false, unit % 16),
    ]
}

/// The halves of a character beyond U+FFFF, escaped as in JSON.
fn push_pair(code: u32, text: &mut Vec<u8>) -> io::Result<()>
    requires low { 65535 < code }
    requires high { code < 1114112 }
    ensures { OnOk result (text.new.items ≡ text.old.items ++ json_pair code) }
{
    let above = code - 65536;
    text.extend_from_slice(&unit_text(55296 + above / 1024))?;
    text.extend_from_slice(&unit_text(56320 + above % 1024))?;
    Ok(())
}

/// Appends a character, escaped.
pub(crate) fn push_escape(form: Form, code: u32, text: &mut Vec<u8>) -> io::Result<()>
    requires { code < 1114112 }
    ensures { OnOk result (text.new.items ≡ text.old.items ++ escaped form code) }
{
    match form {
        Form::Text => write!(text, "\\u{{{code:X}}}"),
        Form::Json if code < 65536 => Ok(text.extend_from_slice(&unit_text(code))?),
        Form::Json => push_pair(code, text),
    }
}

/// Appends an octet that is no UTF-8, escaped.
fn push_octet(form: Form, octet: u8, text: &mut Vec<u8>) -> io::Result<()>
    ensures { OnOk result (text.new.items ≡ text.old.items ++ octet_text form octet) }
{
    let high = u32::from(octet) / 16 % 16;
    let low = u32::from(octet) % 16;
    match form {
        Form::Text => {
            text.extend_from_slice(&[b'\\', b'x', digit(true, high), digit(true, low)])?;
        }
        Form::Json => text.extend_from_slice(b"\\ufffd")?,
    }
    Ok(())
}

/// Appends octets that are no UTF-8, escaped.
pub(crate) fn push_octets(form: Form, octets: &[u8], text: &mut Vec<u8>) -> io::Result<()>
    ensures { OnOk result (text.new.items ≡ text.old.items ++ flat_map (octet_text form) octets.now) }
{
    for octet in octets {
        push_octet(form, *octet, text)?;
    }
    Ok(())
}
