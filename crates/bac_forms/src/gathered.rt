//! The datagrams that were read so far.
ghost use Rattle.std.specs.Prelude.{◌≡◌, [], OnOk};
ghost use Rattle.bac_forms.specs.Gathered.{after, gathered_view};

use std::alloc::{AllocError, Global};
use std::mem;

/// What a character of a text adds.
#[derive(Clone, Copy)]
pub(crate) enum Event {
    Nothing,
    /// An octet of the datagram.
    Octet(u8),
    /// The end of the datagram.
    End,
}

/// The datagrams that were read so far.
#[derive(Drop)]
pub(crate) struct Gathered {
    /// Those that have ended.
    pub(crate) whole: Vec<Vec<u8>>,
    /// The octets of the next one.
    pub(crate) begun: Vec<u8>,
}

impl Gathered {
    pub(crate) fn new(alloc: Global) -> Gathered
        ensures whole { result.whole.items ≡ [] }
        ensures begun { result.begun.items ≡ [] }
    {
        Gathered {
            whole: Vec::new(alloc),
            begun: Vec::new(alloc),
        }
    }

    /// Ends the datagram.
    fn end(&mut self, alloc: Global) -> Result<(), AllocError>
        ensures { OnOk result (gathered_view self.new ≡ after Event.End (gathered_view self.old)) }
    {
        let datagram = mem::replace(&mut self.begun, Vec::new(alloc));
        self.whole.push(datagram)?;
        Ok(())
    }

    /// Adds what a character says. An Err only where memory ran out.
    pub(crate) fn add(&mut self, alloc: Global, event: Event) -> Result<(), AllocError>
        ensures { OnOk result (gathered_view self.new ≡ after event (gathered_view self.old)) }
    {
        match event {
            Event::Nothing => Ok(()),
            Event::Octet(octet) => {
                self.begun.push(octet)?;
                Ok(())
            }
            Event::End => self.end(alloc),
        }
    }
}
