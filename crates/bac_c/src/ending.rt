//! How an ask ended, as a C program is told.
ghost use Rattle.std.specs.Prelude.{◌≡◌};
ghost use Rattle.bac_requester.specs.Views.{ended_view};
ghost use Rattle.bac_service.specs.Views.{complex_view, owned_reply_view};
ghost use Rattle.bac_c.specs.Endings.{complex_end, end_of as plain_end, octets_of as plain_octets, reply_end};

use crate::records::End;
use bac_requester::{Ended, Ending};
use bac_service::{AnyReply, Complex, OwnedReply};

fn told(ticket: u64, how: u32, class: u32, code: u32, position: i64) -> End
    ensures { result ≡ record { ticket = ticket; how = how; class = class; code = code; position = position } }
{
    End {
        ticket,
        how,
        class,
        code,
        position,
    }
}

fn of_complex(ticket: u64, complex: Complex<'_>) -> End
    ensures { result ≡ complex_end ticket (complex_view complex.entry) }
{
    match complex.start() {
        None => told(ticket, 0, 0, 0, 0),
        Some(start) => {
            if complex.service().is_read() {
                told(ticket, 7, 0, u32::from(complex.reaches_end()), start)
            } else {
                told(ticket, 8, 0, 0, start)
            }
        }
    }
}

fn of_reply(ticket: u64, reply: &OwnedReply) -> End
    ensures { result ≡ reply_end ticket (owned_reply_view reply.now) }
{
    match reply {
        AnyReply::Complex(complex) => of_complex(ticket, complex.as_complex()),
        AnyReply::Simple => told(ticket, 1, 0, 0, 0),
        AnyReply::Error { class, code } => told(ticket, 2, *class, *code, 0),
        AnyReply::Reject(reason) => told(ticket, 3, 0, u32::from(*reason), 0),
    }
}

/// What a C program is told of a ticket that has ended.
pub fn end_of(finish: &Ended) -> End
    ensures { result ≡ plain_end (ended_view finish.now) }
{
    let ticket = finish.ticket;
    match &finish.ending {
        Ending::Answered(reply) => of_reply(ticket, reply),
        Ending::Rejected(reason) => told(ticket, 3, 0, u32::from(*reason), 0),
        Ending::Aborted(reason) => told(ticket, 4, 0, u32::from(*reason), 0),
        Ending::TimedOut => told(ticket, 5, 0, 0, 0),
        Ending::Expired => told(ticket, 6, 0, 0, 0),
    }
}

/// The octets of values or of a file that came; none where none came.
pub fn octets_of(finish: &Ended) -> &[u8]
    ensures { result.now ≡ plain_octets (ended_view finish.now) }
{
    match &finish.ending {
        Ending::Answered(AnyReply::Complex(complex)) => complex.as_complex().octets(),
        _ => &[],
    }
}
