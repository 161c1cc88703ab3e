//! Words of a request, of which the last may name a file: `put file:1 0 @FILE`.
ghost use Rattle.std.specs.Prelude.{◌≡◌, ◌++◌, ◌∷◌, [], map, string_bytes, IfErr, IfOk, MatchOption};
ghost use Rattle.std.specs.Option.{option_map};
ghost use Rattle.bac_npdu.specs.Views.{peer_view};
ghost use Rattle.bac_text.specs.Statuses.{IsStop};
ghost use Rattle.bac_environment.specs.Files.{OfFile, OnFile};
ghost use Rattle.bac_asking.specs.FileWords.{AreDigitsOf, IsBefore, file_of, path_of};
ghost use Rattle.bac_asking.specs.AskedOne.{IsAskedFrom};
ghost use Rattle.bac_environment.specs.Sockets.{OnClock, OnPort};

use crate::asking::Asking;
use crate::online;
use bac_environment::{ClientSockets, Environment, OpenFiles, octets_of, opened};
use bac_npdu::Peer;
use bac_text::{Status, no_memory};
use std::alloc::{AllocError, Global};
use std::io::Write;

/// The path that a word names, where it begins with `@`.
fn path_in<'a>(word: &'a str) -> Option<&'a str>
    ensures { option_map (λ p. p.now) result ≡ path_of word.now }
{
    word.strip_prefix('@')
}

/// The words before the last one, and the path that this one names, where it begins with `@`.
fn file_in<'w, 'a>(words: &'w [&'a str]) -> Option<(&'w [&'a str], &'a str)>
    ensures { MatchOption result (file_of (map (λ w. w.now) words.now) ≡ None)
        (λ r. IsBefore (map (λ w. w.now) r.0.now) r.1.now (map (λ w. w.now) words.now)) }
{
    let (last, front) = words.split_last()?;
    let path = path_in(*last)?;
    Some((front, path))
}

/// The octets of a file in hexadecimal. Where it cannot be read, `err` and the status say so.
fn digits_of<F: OpenFiles, E: Write>(
    alloc: Global,
    files: &F,
    path: &str,
    err: &mut E,
) -> Result<String, Status>
    ensures digits { IfOk result (λ t. OfFile (OnFile F.is_file F.File.remaining) path.now (λ content. AreDigitsOf content (string_bytes t))) }
    ensures told { IfErr result IsStop }
{
    let file = opened(files, path, err)?;
    let octets = octets_of(alloc, path, file, err)?;
    match hex::encode_upper(alloc, &octets) {
        Ok(digits) => Ok(digits),
        Err(_) => Err(no_memory(err)),
    }
}

/// Those words, and one more behind them.
fn with_last<'a>(
    alloc: Global,
    front: &[&'a str],
    last: &'a str,
) -> Result<Vec<&'a str>, AllocError>
    ensures { IfOk result (λ v. map (λ w. w.now) v.items ≡ map (λ w. w.now) front.now ++ last.now ∷ []) }
{
    let mut words = Vec::from_slice(alloc, front)?;
    words.push(last)?;
    Ok(words)
}

/// Asks a node the request of some words, in rounds if they are wanted, and prints the result. If the last word is `@` and a path, the octets of the file there
/// stand in its place, in hexadecimal.
///
/// If the words are no request, prints `bad words` and which on `err`. If the file cannot be read, prints `cannot read` and the reason on `err`.
pub fn ask<F: OpenFiles, M: ClientSockets, O: Write, E: Write>(
    environment: &Environment<'_, F, M>,
    asking: &Asking,
    peer: Peer,
    words: &[&str],
    out: &mut O,
    err: &mut E,
) -> Status
    ensures { IsAskedFrom (OnFile F.is_file F.File.remaining) (OnPort M.is_bound M.Link.failures M.Link.calls) (OnClock M.is_made M.Timer.told) result
        asking.now (peer_view peer) (map (λ w. w.now) words.now) (O.contents out.old) (O.contents out.new) }
{
    let alloc = environment.alloc;
    let Some((front, path)) = file_in(words) else {
        return online::ask(environment, asking, peer, words, out, err);
    };
    let digits = match digits_of(alloc, environment.files, path, err) {
        Ok(digits) => digits,
        Err(status) => return status,
    };
    let Ok(meant) = with_last(alloc, front, digits.as_str()) else {
        return no_memory(err);
    };
    online::ask(environment, asking, peer, &meant, out, err)
}
