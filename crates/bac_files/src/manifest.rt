//! The list of the files of a backup: a line for each, with its digest, its length and its name in the folder.
ghost use Rattle.std.specs.Prelude.{◌≡◌, ◌<◌, length, map, IfOk, IfSome};
ghost use Rattle.std.specs.Option.{option_map};
ghost use Rattle.bac_value.specs.Views.{object_identifier_view};
ghost use Rattle.bac_value_text.specs.Numbers.{array_of};
ghost use Rattle.bac_files.specs.Manifests.{file_of, last_hyphen, line_of, name_octet, name_of, object_named, saved_view, stem_of, with_colon, words_in, words_view};

use bac_value::ObjectIdentifier;
use bac_value_text::{number_in, object_in, object_text, parts_at};
use std::alloc::{AllocError, Global};

/// A file of a peer, as a folder has it.
#[derive(Clone, Copy)]
pub struct SavedFile {
    /// The file object.
    pub object: ObjectIdentifier,
    /// How many octets it has.
    pub length: u64,
    /// Their digest, SHA-256.
    pub digest: [u8; 32],
}

/// The octet of a name for that of a text: a hyphen for a colon.
fn name_octet(octet: u8) -> u8
    ensures { result ≡ name_octet octet }
{
    if octet == b':' { b'-' } else { octet }
}

/// A text with hyphens in the place of its colons.
fn hyphened(alloc: Global, text: &[u8]) -> Result<Vec<u8>, AllocError>
    ensures { IfOk result (λ name. name.items ≡ map name_octet text.now) }
{
    let mut name = Vec::new(alloc);
    for octet in text {
        name.push(name_octet(*octet))?;
    }
    Ok(name)
}

/// The name of the file in a folder that has the octets of an object: `file-1.bin`.
pub fn file_name(alloc: Global, object: ObjectIdentifier) -> Result<Vec<u8>, AllocError>
    ensures { IfOk result (λ name. name.items ≡ name_of (object_identifier_view object)) }
{
    let text = object_text(alloc, object)?;
    let mut name = hyphened(alloc, &text)?;
    name.extend_from_slice(b".bin")?;
    Ok(name)
}

/// The line of a file, without its end: the digest in hexadecimal, the number of octets, and the name.
pub fn manifest_line(alloc: Global, file: &SavedFile) -> Result<Vec<u8>, AllocError>
    ensures { IfOk result (λ line. line.items ≡ line_of file.now) }
{
    let digest = hex::encode(alloc, &file.digest)?;
    let length = file.length;
    let name = file_name(alloc, file.object)?;
    let text = format!(in alloc; "{digest} {length} ")?;
    let mut line = text.into_bytes();
    line.extend_from_slice(&name)?;
    Ok(line)
}

/// The name of a file without its ending; None where it ends otherwise.
fn stem_of(name: &[u8]) -> Option<&[u8]>
    ensures { option_map (λ s. s.now) result ≡ stem_of name.now }
{
    name.strip_suffix(b".bin")
}

/// The place of the last hyphen.
fn last_hyphen(text: &[u8]) -> Option<usize>
    ensures place { result ≡ last_hyphen text.now }
    ensures within { IfSome result (λ place. place < length text.now) }
{
    let mut last = None;
    for (place, octet) in text.iter().enumerate() {
        if *octet == b'-' {
            last = Some(place);
        }
    }
    last
}

/// A text with a colon at that place.
fn with_colon(alloc: Global, text: &[u8], place: usize) -> Result<Vec<u8>, AllocError>
    requires { place < length text.now }
    ensures { IfOk result (λ r. r.items ≡ with_colon text.now place) }
{
    let mut with = Vec::from_slice(alloc, &text[..place])?;
    with.push(b':')?;
    with.extend_from_slice(&text[place + 1..])?;
    Ok(with)
}

/// The object whose octets the file of that name has; None where no file of a backup has this name.
fn object_named(alloc: Global, name: &[u8]) -> Result<Option<ObjectIdentifier>, AllocError>
    ensures { IfOk result (λ o. option_map object_identifier_view o ≡ object_named name.now) }
{
    let Some(stem) = stem_of(name) else {
        return Ok(None);
    };
    let Some(place) = last_hyphen(stem) else {
        return Ok(None);
    };
    let text = with_colon(alloc, stem, place)?;
    Ok(object_in(&text))
}

/// The digest that a word of 64 hexadecimal digits is.
fn digest_in(word: &[u8]) -> Option<[u8; 32]>
    ensures { result ≡ array_of 32 word.now }
{
    let mut digest = [0; 32];
    match hex::decode_to_slice(word, &mut digest) {
        Ok(()) => Some(digest),
        Err(_) => None,
    }
}

/// The words of a line.
#[derive(Clone, Copy)]
struct Words<'a> {
    digest: &'a [u8],
    length: &'a [u8],
    name: &'a [u8],
}

/// The words of a line: what stands before the first space, before the next, and behind that. None where there are fewer spaces.
#[tactic(auto, unfolding(crate::specs::Manifests::words_in))]
fn words_in(line: &[u8]) -> Option<Words<'_>>
    ensures { option_map words_view result ≡ words_in line.now }
{
    let (digest, rest) = parts_at(b' ', line)?;
    let (length, name) = parts_at(b' ', rest)?;
    Some(Words {
        digest,
        length,
        name,
    })
}

/// The file that a line of a manifest is of: `SHA256 LENGTH NAME`, in the form of [`manifest_line`], but the digits of the digest may be upper case. None where
/// it is no such line.
#[tactic(auto, unfolding(crate::specs::Manifests::file_in))]
pub fn read_manifest_line(alloc: Global, line: &str) -> Result<Option<SavedFile>, AllocError>
    ensures { IfOk result (λ f. option_map saved_view f ≡ file_of line.now) }
{
    let Some(words) = words_in(line.as_bytes()) else {
        return Ok(None);
    };
    let (Some(digest), Some(length)) = (digest_in(words.digest), number_in(words.length)) else {
        return Ok(None);
    };
    match object_named(alloc, words.name)? {
        Some(object) => Ok(Some(SavedFile {
            object,
            length,
            digest,
        })),
        None => Ok(None),
    }
}
