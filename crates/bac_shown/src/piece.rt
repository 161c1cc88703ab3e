//! Pieces of text: characters, and octets that are none.
ghost use Rattle.std.specs.Prelude.{◌≡◌, ◌++◌, [], drop, take, true, OnErr, OnOk, IfOk, length, ◌≤◌};
ghost use Rattle.bstr.specs.Utf8.{decoded};
ghost use Rattle.bac_shown.specs.Pieces.{is_open, piece_text, Turns};

use crate::escape::{push_escape, push_octets};
use crate::form::Form;
use crate::harmful::is_harmful;
use bstr::decode_utf8;
use std::io;

/// Appends a piece as it is shown: a character, or octets that are none.
fn push_piece(
    form: Form,
    character: Option<char>,
    octets: &[u8],
    text: &mut Vec<u8>,
) -> io::Result<()>
    ensures { OnOk result (text.new.items ≡ text.old.items ++ piece_text form character octets.now) }
{
    match character {
        Some(character) if is_harmful(character) => push_escape(form, character as u32, text),
        Some(character) => {
            let mut buffer = [0; 4];
            let shown = character.encode_utf8(&mut buffer);
            Ok(text.extend_from_slice(shown.as_bytes())?)
        }
        None => push_octets(form, octets, text),
    }
}

pub(crate) fn remove_front(octets: &mut Vec<u8>, count: usize)
    requires { count ≤ length octets.old.items }
    ensures { octets.new.items ≡ drop count octets.old.items }
{
    let _ = octets.drain(..count);
}

/// Moves the first piece of what is held to what waits, where more octets cannot change it. Answers whether it did; an Err, out of memory, changes nothing.
pub(crate) fn turn(form: Form, held: &mut Vec<u8>, waiting: &mut Vec<u8>) -> io::Result<bool>
    requires { waiting.old.items ≡ [] }
    ensures ok { IfOk result (λ moved. Turns form held.old.items held.new.items waiting.new.items moved) }
    ensures kept { OnErr result (held.new.items ≡ held.old.items) }
    ensures empty { OnErr result (waiting.new.items ≡ []) }
{
    let (character, size) = decode_utf8(held);
    if character.is_none() && size == held.len() {
        return Ok(false);
    }
    if let Err(error) = push_piece(form, character, &held[..size], waiting) {
        waiting.clear();
        return Err(error);
    }
    remove_front(held, size);
    Ok(true)
}
