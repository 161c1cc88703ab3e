//! Finding the form of a text.
ghost use Rattle.std.specs.Prelude.{◌≡◌};
ghost use Rattle.bac_forms.specs.Guess.{are_of_stream, begins_base64, begins_dump, begins_note, begins_quoted, ends_offset, evident, guess, is_of_stream, opens};

use crate::blanks::is_space;
use crate::digits::is_digit;
use crate::form::Form;

/// Whether a quote is the first character that is no blank.
fn begins_quoted(text: &[u8]) -> bool
    ensures { result ≡ begins_quoted text.now }
{
    let mut rest = text;
    while let Some((octet, others)) = rest.split_first() {
        if !is_space(*octet) {
            return *octet == b'"';
        }
        rest = others;
    }
    false
}

/// Whether the text begins with the offset 0 of a hex dump: three zeros.
fn begins_dump(text: &[u8]) -> bool
    ensures { result ≡ begins_dump text.now }
{
    matches!(text, [a, b, c, ..] if *a == b'0' && *b == b'0' && *c == b'0')
}

/// Whether an array of C opens.
fn opens(text: &[u8]) -> bool
    ensures { result ≡ opens text.now }
{
    text.contains(&b'{')
}

/// Whether lines of digits may have the character.
fn is_of_stream(octet: u8) -> bool
    ensures { result ≡ is_of_stream octet }
{
    is_digit(octet) || is_space(octet) || octet == b':' || octet == b'x'
}

fn are_of_stream(text: &[u8]) -> bool
    ensures { result ≡ are_of_stream text.now }
{
    text.iter().all(|octet| is_of_stream(*octet))
}

/// Whether a note begins the text.
fn begins_note(text: &[u8]) -> bool
    ensures { result ≡ begins_note text.now }
{
    match text {
        [first, ..] => *first == b'#',
        [] => false,
    }
}

/// The form that a text seems to have: escaped strings if it begins with a quote; arrays of C if it has a brace; a hex dump if it begins with three zeros, as the
/// offset of its first line does; lines of digits if it has nothing else, or begins with a note; otherwise Base64.
pub fn guess(text: &[u8]) -> Form
    ensures { result ≡ guess text.now }
{
    if begins_quoted(text) {
        Form::Escaped
    } else if opens(text) {
        Form::CArray
    } else if begins_dump(text) {
        Form::HexDump
    } else if begins_note(text) || are_of_stream(text) {
        Form::Hex
    } else {
        Form::Base64
    }
}

/// Whether zeros at the front end at a blank or a colon, as the offset of a hex dump does.
fn ends_offset(text: &[u8]) -> bool
    ensures { result ≡ ends_offset text.now }
{
    let mut rest = text;
    while let Some((octet, others)) = rest.split_first() {
        if *octet != b'0' {
            return *octet == b' ' || *octet == b'\t' || *octet == b':';
        }
        rest = others;
    }
    false
}

/// Whether a text begins as a datagram of BACnet/IP does in Base64.
fn begins_base64(text: &[u8]) -> bool
    ensures { result ≡ begins_base64 text.now }
{
    matches!(text, [a, b, ..] if *a == b'g' && *b == b'Q')
}

/// The form that a text has beyond doubt, as [`guess`] finds it: a hex dump only where a blank or a colon follows its offset, and Base64 only where it begins as a
/// datagram of BACnet/IP does. Otherwise lines of digits.
pub fn evident(text: &[u8]) -> Form
    ensures { result ≡ evident text.now }
{
    match guess(text) {
        Form::HexDump if !ends_offset(text) => Form::Hex,
        Form::Base64 if !begins_base64(text) => Form::Hex,
        form => form,
    }
}
