//! Reading a file of a peer as a whole, in as many reads as it takes.
ghost use Rattle.std.specs.Prelude.{IfErr};
ghost use Rattle.bac_text.specs.Statuses.{IsStop};

use crate::gathering::Gathering;
use crate::part_fault::PartFault;
use crate::part_size::PartSize;
use crate::peer_file::{Asked, PeerFile, ask_part, wants_smaller};
use bac_asking::{Asking, Client, part_in};
use bac_commands::link_fault;
use bac_driver::AskEnd;
use bac_environment::ClientSockets;
use bac_requester::Ending;
use bac_service::{AnyComplex, AnyReply, FileRead};
use bac_text::{Status, no_memory};
use bac_value::OctetString;
use std::alloc::Global;
use std::io::Write;

/// What is known of a file that is read, and in which parts it is asked for.
#[derive(Drop)]
struct Reading {
    gathering: Gathering,
    size: PartSize,
    /// What was wrong with the last part, if one came that was not taken.
    fault: Option<PartFault>,
}

impl Reading {
    /// Nothing is known of it.
    fn new(alloc: Global) -> Reading {
        Reading {
            gathering: Gathering::new(alloc),
            size: PartSize::Apdu1476,
            fault: None,
        }
    }

    /// The position and the size of the part that is asked for next.
    fn next_part(&self) -> (u64, PartSize) {
        (self.gathering.next_start(), self.size)
    }

    /// Takes how a read ended. Answers whether another part is asked for.
    fn hear(&mut self, end: &AskEnd) -> bool {
        match part_in(end) {
            Some(part) => match self.gathering.take(part) {
                Ok(()) => !self.gathering.is_whole(),
                Err(fault) => {
                    self.fault = Some(fault);
                    false
                }
            },
            None => wants_smaller(end) && self.size.shrink(),
        }
    }
}

/// What was read of a file.
#[derive(Drop)]
pub(crate) struct Got {
    /// Its octets, as far as they were read.
    pub octets: Vec<u8>,
    /// Whether these are all.
    pub is_whole: bool,
    /// What was wrong with the last part, where that was not taken.
    pub fault: Option<PartFault>,
    /// The last read, and how it ended.
    pub last: Asked,
}

/// What was read of a file, by what is known of it and the last read. Memory that was refused is a failure.
fn got_so_far<E: Write>(reading: Reading, last: Asked, err: &mut E) -> Result<Got, Status>
    ensures told { IfErr result IsStop }
{
    let fault = reading.fault;
    if fault == Some(PartFault::NoMemory) {
        drop(reading);
        drop(last);
        return Err(no_memory(err));
    }
    let is_whole = reading.gathering.is_whole();
    let octets = reading.gathering.into_octets();
    Ok(Got {
        octets,
        is_whole,
        fault,
        last,
    })
}

/// A client reads a file to its end, part after part; where the peer aborts a read for its length, in smaller parts from then on. It stops at the first read
/// that is answered with no part, or with none that goes on where the one before it ended.
pub(crate) fn read_whole<M: ClientSockets, E: Write>(
    asking: &Asking,
    client: &mut Client<'_, M>,
    file: &PeerFile<'_>,
    err: &mut E,
) -> Result<Got, Status>
    ensures told { IfErr result IsStop }
{
    let mut reading = Reading::new(client.station.alloc);
    for _ in 0..u64::MAX {
        let last = ask_part(asking, client, file, reading.next_part(), err)?;
        if !reading.hear(&last.end) {
            return got_so_far(reading, last, err);
        }
        drop(last);
    }
    Err(link_fault(err))
}

/// The end of an ask that is answered with all octets of a file.
pub(crate) fn whole_end(octets: Vec<u8>) -> Option<AskEnd> {
    let read = FileRead {
        end_of_file: true,
        start: 0,
        content: OctetString::new(octets)?,
    };
    let reply = AnyReply::Complex(AnyComplex::FileRead(read));
    Some(AskEnd::Ended(Ending::Answered(reply)))
}
