//! What carries datagrams between two links in memory, and the clock beside them.
ghost use Rattle.std.specs.Prelude.{◌≤◌, length, IfOk, IfSome};

use bac_driver::LinkFault;
use bac_npdu::LinkAddress;
use bac_rows::row::Row;
use std::alloc::Global;
use std::collections::VecDeque;

/// The end of a link.
#[derive(Clone, Copy, PartialEq, Eq)]
pub(crate) enum End {
    Client,
    Server,
}

impl End {
    /// Its address.
    pub(crate) fn link(self) -> LinkAddress {
        match self {
            End::Client => [127, 0, 0, 1, 0xBA, 0xC0],
            End::Server => [127, 0, 0, 1, 0xBA, 0xC1],
        }
    }

    /// The end with that address; that of the server where there is none.
    pub(crate) fn of(link: LinkAddress) -> End {
        if link[5] == 0xC0 {
            End::Client
        } else {
            End::Server
        }
    }

    /// Its name in the notes of calls.
    pub(crate) fn name(self) -> &'static str {
        match self {
            End::Client => "client",
            End::Server => "server",
        }
    }

    fn other(self) -> End {
        match self {
            End::Client => End::Server,
            End::Server => End::Client,
        }
    }
}

/// Datagrams under way, oldest first, the moment, and the calls so far, one a line.
#[derive(Drop)]
pub(crate) struct Medium {
    to_client: VecDeque<Vec<u8>>,
    to_server: VecDeque<Vec<u8>>,
    /// Which call to send fails, and which to receive, counted from 1 over both links; 0 is none.
    pub(crate) failing_send: u64,
    pub(crate) failing_receive: u64,
    pub(crate) receives: u64,
    sends: u64,
    /// It goes on by 100 milliseconds at each call that receives nothing, even where the call was to wait less: a system may be late.
    pub(crate) moment: u64,
    /// The moments that clocks read, in this order, in place of that one, and how many were read.
    pub(crate) moments: Vec<u64>,
    pub(crate) told: usize,
    pub(crate) calls: Row,
}

/// Copies octets to the front of a buffer, as many as fit, and returns how many.
fn copy_front(octets: &[u8], buffer: &mut [u8]) -> usize
    ensures { result ≤ length buffer.new }
{
    let len = octets.len().min(buffer.len());
    buffer[..len].copy_from_slice(&octets[..len]);
    len
}

impl Medium {
    /// A medium at moment 0, with nothing under way, on which no call fails.
    pub(crate) fn new(alloc: Global) -> Medium {
        Medium {
            to_client: VecDeque::new(alloc),
            to_server: VecDeque::new(alloc),
            failing_send: 0,
            failing_receive: 0,
            receives: 0,
            sends: 0,
            moment: 0,
            moments: Vec::new(alloc),
            told: 0,
            calls: Row::new(alloc),
        }
    }

    /// Notes the end and the verb of a call.
    fn say_call(&mut self, end: End, verb: &str) {
        self.calls.say(end.name());
        self.calls.put(b' ');
        self.calls.say(verb);
        self.calls.put(b' ');
    }

    /// Notes a call.
    fn note(&mut self, end: End, verb: &str, octets: &[u8]) {
        self.say_call(end, verb);
        self.calls.say_octets(octets);
        self.calls.put(b'\n');
    }

    /// Notes how long a call waits, or that it waits for nothing.
    fn note_wait(&mut self, end: End, verb: &str, wait: u64) {
        self.say_call(end, verb);
        self.calls.tell("#\n", wait);
    }

    fn under_way(&mut self, end: End) -> &mut VecDeque<Vec<u8>> {
        match end {
            End::Client => &mut self.to_client,
            End::Server => &mut self.to_server,
        }
    }

    /// A copy of a datagram is under way; whether it found memory.
    fn put(&mut self, to: LinkAddress, octets: &[u8]) -> bool {
        match octets.to_vec(self.calls.alloc) {
            Ok(copy) => self.under_way(End::of(to)).push_back(copy).is_ok(),
            Err(_) => false,
        }
    }

    /// Takes a datagram over; false where the call fails.
    pub(crate) fn send(&mut self, end: End, to: LinkAddress, octets: &[u8]) -> bool {
        self.note(end, "sent", octets);
        self.sends = self.sends.saturating_add(1);
        self.sends != self.failing_send && self.put(to, octets)
    }

    /// Hands a datagram over, or nothing: then time goes on.
    fn hand_over(
        &mut self,
        end: End,
        datagram: Option<Vec<u8>>,
        buffer: &mut [u8],
        wait: u64,
    ) -> Option<(LinkAddress, usize)>
        ensures { IfSome result (λ d. d.1 ≤ length buffer.new) }
    {
        match datagram {
            Some(octets) => {
                self.note_wait(end, "waits", wait);
                self.note(end, "received", &octets);
                Some((end.other().link(), copy_front(&octets, buffer)))
            }
            None => {
                self.moment = self.moment.saturating_add(100);
                self.note_wait(end, "nothing", wait);
                None
            }
        }
    }

    /// Hands over the oldest datagram for a link.
    pub(crate) fn receive(
        &mut self,
        end: End,
        buffer: &mut [u8],
        wait: u64,
    ) -> Result<Option<(LinkAddress, usize)>, LinkFault>
        ensures { IfOk result (λ r. IfSome r (λ d. d.1 ≤ length buffer.new)) }
    {
        self.receives = self.receives.saturating_add(1);
        if self.receives == self.failing_receive {
            self.calls.say_line(end.name(), " failed");
            return Err(LinkFault);
        }
        let datagram = self.under_way(end).pop_front();
        Ok(self.hand_over(end, datagram, buffer, wait))
    }

    /// The moment that a clock reads: the next one of the list, or the medium's where the list is used up.
    pub(crate) fn now(&mut self) -> u64 {
        self.told = self.told.saturating_add(1);
        let place = self.told.saturating_sub(1);
        match self.moments.get(place) {
            Some(moment) => *moment,
            None => self.moment,
        }
    }
}
