//! A file that is put together from parts.
ghost use Rattle.std.specs.Prelude.{◌≡◌, ◌⊎◌, ◌≤◌, [], length, None, Some, IfErr, OnErr, OnOk};
ghost use Rattle.bac_files.specs.Limits.{MOST_OCTETS};
ghost use Rattle.bac_files.specs.Parts.{AreJoined, AreJoinedWith, NOTHING, fault_of, part_view, with_part};
ghost use Rattle.bac_files.specs.declared.part_fault.PartFault.TheVariants as fault;

use crate::part_fault::PartFault;
use bac_service::{Content, FileRead};
use std::alloc::{AllocError, Global};
use std::marker::Model;

/// The most octets of a file that is put together (own limit): 64 MiB.
pub const MOST_OCTETS: usize = 67_108_864;

/// The front of a file, as far as its parts are known.
#[derive(Drop)]
pub struct Gathering {
    octets: Vec<u8>,
    is_whole: bool,
}

impl Model for Gathering {
    ghost use Rattle.std.specs.Prelude.{◌≤◌, length};
    ghost use Rattle.bac_files.specs.Limits.{MOST_OCTETS};
    ghost use Rattle.bac_files.specs.Parts.{Front};

    ghost Value = { Front };

    ghost view = { λ g. record { octets = g.octets.items; is_whole = g.is_whole } };

    ghost invariant = { λ g. length g.octets.items ≤ MOST_OCTETS };
}

impl Gathering {
    /// The front of a file of which no part is known.
    #[tactic(auto, using(crate::proofs::Joined::nothing))]
    pub fn new(alloc: Global) -> Gathering
        ensures nothing { result ≡ NOTHING }
        ensures joined { AreJoined [] result }
    {
        Gathering {
            octets: Vec::new(alloc),
            is_whole: false,
        }
    }

    /// Its octets.
    pub fn octets(&self) -> &[u8]
        ensures { result.now ≡ self.now.octets }
    {
        &self.octets
    }

    /// Whether its last part reaches the end of the file: then these are all octets of it.
    pub fn is_whole(&self) -> bool
        ensures { result ≡ self.now.is_whole }
    {
        self.is_whole
    }

    /// The position at which the next part starts.
    pub fn next_start(&self) -> u64
        ensures start { result ≡ length self.now.octets }
        ensures few { result ≤ MOST_OCTETS }
    {
        self.octets.len() as u64
    }

    /// Its octets, as a vector.
    pub fn into_octets(self) -> Vec<u8>
        ensures { result.items ≡ self.octets }
    {
        self.octets
    }

    /// Why a part is not taken; None where it is, if there is memory.
    fn fault_of(&self, part: FileRead<Content<'_>>) -> Option<PartFault>
        ensures { result ≡ fault_of self.now (part_view part.entry) }
    {
        let octets = part.content.octets;
        if self.is_whole {
            Some(PartFault::AfterEnd)
        } else if part.start != self.octets.len() as i64 {
            Some(PartFault::WrongStart)
        } else if octets.is_empty() && !part.end_of_file {
            Some(PartFault::NoOctets)
        } else if octets.len() > MOST_OCTETS - self.octets.len() {
            Some(PartFault::TooLong)
        } else {
            None
        }
    }

    /// The part goes behind those that were taken before. After an Err nothing has changed.
    fn append(&mut self, part: FileRead<Content<'_>>) -> Result<(), AllocError>
        requires right { fault_of self.old (part_view part) ≡ None }
        ensures taken { OnOk result (self.new ≡ with_part self.old (part_view part.entry)) }
        ensures joined { OnOk result (AreJoinedWith (part_view part.entry) self.old self.new) }
        ensures same { OnErr result (self.new ≡ self.old) }
    {
        self.octets.extend_from_slice(part.content.octets)?;
        self.is_whole = part.end_of_file;
        Ok(())
    }

    /// Takes the part with which a read was answered: it goes behind those that were taken before.
    ///
    /// Each fault says what is wrong with the part; after one, nothing has changed.
    pub fn take(&mut self, part: FileRead<Content<'_>>) -> Result<(), PartFault>
        ensures right { OnOk result (fault_of self.old (part_view part.entry) ≡ None) }
        ensures taken { OnOk result (self.new ≡ with_part self.old (part_view part.entry)) }
        ensures joined { OnOk result (AreJoinedWith (part_view part.entry) self.old self.new) }
        ensures wrong { IfErr result (λ why. (why ≡ fault.NoMemory) ⊎ (fault_of self.old (part_view part.entry) ≡ Some why)) }
        ensures same { OnErr result (self.new ≡ self.old) }
    {
        if let Some(fault) = self.fault_of(part) {
            return Err(fault);
        }
        match self.append(part) {
            Ok(()) => Ok(()),
            Err(_) => Err(PartFault::NoMemory),
        }
    }
}
