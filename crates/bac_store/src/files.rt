//! Reading and writing files (clauses 14.1 and 14.2).
ghost use Rattle.std.specs.Prelude.{◌≡◌, ◌≤◌, ◌+◌, ℕ, pos, true, false, List, length, IfOk, MatchOption, MatchResult, OnErr};
ghost use Rattle.bac_service.specs.Replies.{held_by};
ghost use Rattle.bac_service.specs.Values.Complex.{StreamWritten};
ghost use Rattle.bac_service.specs.Replies.Reply.{Complex};
ghost use Rattle.bac_service.specs.Views.{owned_reply_view, read_access_view};
ghost use Rattle.bac_store.specs.Answers.{refused};
ghost use Rattle.bac_store.specs.Changes.{is_done};
ghost use Rattle.bac_store.specs.Limits.{FILE_LIMIT as FILE_MOST};
ghost use Rattle.bac_store.specs.Replies.{file_read, is_no_write_start, octets_from, read_file_reply, write_start};
ghost use Rattle.bac_store.specs.Replies.{write_stream_reply};
ghost use Rattle.bac_store.specs.Views.{file_view};

use crate::copying::copied_octets;
use crate::limits::FILE_LIMIT;
use crate::object::File;
use crate::refusal::Refusal;
use bac_service::{AnyComplex, AnyReply, FileRead, OwnedReply, ReadAccess};
use bac_value::{NoMemory, OctetString};
use std::alloc::Global;

/// The reply with at most `count` octets of a file from a position on, and whether they reach the end of the file.
fn stream_reply(
    alloc: Global,
    octets: &[u8],
    start: usize,
    count: u64,
) -> Result<OwnedReply, NoMemory>
    requires within { start ≤ length octets.now }
    requires short { length octets.now ≤ FILE_MOST }
    ensures told { IfOk result (λ r. owned_reply_view r ≡ file_read start count octets.now) }
    ensures held { OnErr result (1 ≤ length (octets_from start count octets.now)) }
{
    let left = octets.len() - start;
    let end_of_file = left as u64 <= count;
    // `count` is less than what is left here, so no bit is lost
    let len = if end_of_file { left } else { count as usize };
    let octets = copied_octets(alloc, &octets[start..start + len])?;
    let read = FileRead {
        end_of_file,
        start: start as i64,
        content: OctetString { octets },
    };
    Ok(AnyReply::Complex(AnyComplex::FileRead(read)))
}

/// The reply to a request to read this file.
pub(crate) fn read_file(
    alloc: Global,
    file: &File,
    access: ReadAccess,
) -> Result<OwnedReply, NoMemory>
    requires { length file.now.octets.items ≤ FILE_MOST }
    ensures told { IfOk result (λ r. owned_reply_view r ≡ read_file_reply (read_access_view access) (file_view file.now)) }
    ensures last { OnErr result (is_done (read_file_reply (read_access_view access) (file_view file.now)) ≡ true) }
    ensures held { OnErr result (1 ≤ length (held_by (read_file_reply (read_access_view access) (file_view file.now)))) }
{
    match access {
        ReadAccess::Records { .. } => Ok(Refusal::InvalidFileAccessMethod.reply()),
        ReadAccess::Stream { start, count } => {
            if start < 0 || start as u64 > file.octets.len() as u64 {
                return Ok(Refusal::InvalidFileStartPosition.reply());
            }
            stream_reply(alloc, &file.octets, start as usize, count)
        }
    }
}

/// The position that a start position of a write stands for; None if it is below -1 or after the end.
fn start_place(octets: &[u8], start: i64) -> Option<usize>
    ensures { MatchOption result (is_no_write_start start octets.now ≡ true)
        (λ at. (is_no_write_start start octets.now ≡ false) × (at ≡ write_start start octets.now) × (at ≤ length octets.now)) }
{
    // -1 appends (clause 14.2)
    if start == -1 {
        return Some(octets.len());
    }
    if start < 0 || start as u64 > octets.len() as u64 {
        return None;
    }
    Some(start as usize)
}

/// The position at which a write to this file begins, or why the write is refused.
pub(crate) fn write_place(file: &File, start: i64, new: &[u8]) -> Result<usize, Refusal>
    requires { length file.now.octets.items ≤ FILE_MOST }
    ensures { MatchResult result
        (λ at. (at ≡ write_start start file.now.octets.items) × (at ≤ length file.now.octets.items) × (at + length new.now ≤ FILE_MOST)
        × (write_stream_reply start new.now (file_view file.now) ≡ Complex (StreamWritten (pos at))))
        (λ e. write_stream_reply start new.now (file_view file.now) ≡ refused e) }
{
    if !file.writable {
        return Err(Refusal::FileAccessDenied);
    }
    match start_place(&file.octets, start) {
        None => Err(Refusal::InvalidFileStartPosition),
        Some(at) if new.len() > FILE_LIMIT - at => Err(Refusal::NoSpaceToWrite),
        Some(at) => Ok(at),
    }
}
