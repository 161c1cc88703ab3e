//! Appends to files, and the replies to them.
ghost use Rattle.std.specs.Prelude.{◌≡◌, ◌&&◌, not};
ghost use Rattle.bac_apdu.specs.Views.{apdu_view};
ghost use Rattle.bac_explain.specs.Appends.{is_append, is_append_in, is_performed_twice, is_written, is_written_in, starts_at_end};

use bac_apdu::{Apdu, read};
use bac_service::{ATOMIC_WRITE_FILE, read_reply, read_request};

/// Whether a start position or record is the end of the file.
fn starts_at_end(start: Option<i64>) -> bool
    ensures { result ≡ starts_at_end start }
{
    match start {
        Some(start) => start == -1,
        None => false,
    }
}

/// Whether an APDU is a whole request that appends to a file.
fn is_append_in(apdu: Apdu<'_>) -> bool
    ensures { result ≡ is_append_in (apdu_view apdu.entry) }
{
    let Apdu::ConfirmedRequest {
        segment: None,
        choice: ATOMIC_WRITE_FILE,
        service,
        ..
    } = apdu
    else {
        return false;
    };
    match read_request(ATOMIC_WRITE_FILE, service) {
        Ok(request) => starts_at_end(request.start()),
        Err(_) => false,
    }
}

/// Whether the octets are an APDU that is a whole request that appends to a file.
fn is_append(octets: &[u8]) -> bool
    ensures { result ≡ is_append octets.now }
{
    match read(octets) {
        Ok(apdu) => is_append_in(apdu),
        Err(_) => false,
    }
}

/// Whether an APDU is a whole ComplexACK with the position at which a file was written.
fn is_written_in(apdu: Apdu<'_>) -> bool
    ensures { result ≡ is_written_in (apdu_view apdu.entry) }
{
    let Apdu::ComplexAck {
        segment: None,
        choice: ATOMIC_WRITE_FILE,
        service,
        ..
    } = apdu
    else {
        return false;
    };
    read_reply(ATOMIC_WRITE_FILE, service).is_ok()
}

/// Whether the octets are an APDU that is a whole ComplexACK with the position at which a file was written.
fn is_written(octets: &[u8]) -> bool
    ensures { result ≡ is_written octets.now }
{
    match read(octets) {
        Ok(apdu) => is_written_in(apdu),
        Err(_) => false,
    }
}

/// Whether two different replies show that a request was performed twice: it appends to a file, and both have a position.
pub(crate) fn is_performed_twice(request: &[u8], first: &[u8], other: &[u8]) -> bool
    ensures { result ≡ is_performed_twice request.now first.now other.now }
{
    is_append(request) && is_written(first) && is_written(other)
}
