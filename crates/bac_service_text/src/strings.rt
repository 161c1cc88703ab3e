//! Octet strings that stand one after the other, in hexadecimal.
ghost use Rattle.std.specs.Prelude.{◌≡◌, ◌++◌, ◌<◌, ℕ, List, length, OnOk, IfOk};
ghost use Rattle.std.specs.Io.KnownBytes.{Appends};
ghost use Rattle.bac_service.specs.Members.{ApplicationString};
ghost use Rattle.hex.specs.Hex.{encode_upper};
ghost use Rattle.std.specs.Prelude.{codes};
ghost use Rattle.bac_service_text.specs.Strings.{AreTheStrings, more_strings_text, strings_text};

use bac_value::{Class, kinds, read_element};
use std::alloc::Global;
use std::io;
use std::io::{ErrorKind, Write};

/// The octet string in front, and what is after it. An Err only where no application octet string is in front.
fn string_at(run: &[u8]) -> io::Result<(&[u8], &[u8])>
    ensures is { IfOk result (λ r. (front : List ℕ) × (ApplicationString r.0.now front × (run.now ≡ front ++ r.1.now))) }
    ensures onward { IfOk result (λ r. length r.1.now < length run.now) }
{
    match read_element(run) {
        Ok((element, len))
            if element.tag.number == kinds::OCTET_STRING
                && element.tag.class == Class::Application => {
            Ok((element.contents, &run[len..]))
        }
        _ => Err(io::Error::from(ErrorKind::InvalidData)),
    }
}

fn print_more_strings<W: Write>(alloc: Global, run: &[u8], out: &mut W) -> io::Result<()>
    ensures { OnOk result ((strings : List (List ℕ)) × (AreTheStrings strings run.now
        × Appends (W.contents out.old) (W.contents out.new) (more_strings_text strings))) }
{
    let mut rest = run;
    while !rest.is_empty() {
        let (string, next) = string_at(rest)?;
        let text = hex::encode_upper(alloc, string)?;
        write!(out, ",{text}")?;
        rest = next;
    }
    Ok(())
}

/// Prints octet strings, each with its application tag, one after the other: their octets, with commas between them.
pub(crate) fn print_strings<W: Write>(alloc: Global, run: &[u8], out: &mut W) -> io::Result<()>
    ensures { OnOk result ((strings : List (List ℕ)) × (AreTheStrings strings run.now
        × Appends (W.contents out.old) (W.contents out.new) (codes " octets=" ++ strings_text strings))) }
{
    write!(out, " octets=")?;
    if run.is_empty() {
        return Ok(());
    }
    let (string, rest) = string_at(run)?;
    let text = hex::encode_upper(alloc, string)?;
    write!(out, "{text}")?;
    print_more_strings(alloc, rest, out)
}
