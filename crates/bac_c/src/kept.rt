//! The cells that are kept for a node that is to be started.
ghost use Rattle.std.specs.Prelude.{◌≡◌, ◌≤◌, [], length, IfErr, IfOk, OnErr, OnOk};
ghost use Rattle.bac_keep.specs.Cells.{with_cell};
ghost use Rattle.bac_keep.specs.Overlay.{overlay};
ghost use Rattle.bac_c.specs.Fitting.{AreFit, IsWrong};
ghost use Rattle.bac_c.specs.Kept.{AreBelow, IsNextFrom, cells_in};

use crate::copying::copied_octets;
use crate::kept_fault::KeptFault;
use crate::restoring::restored;
use bac_keep::Cell;
use bac_store::Store;
use bac_value::NoMemory;
use std::alloc::Global;
use std::marker::Model;

/// The cells that are kept for a node that is to be started, at most one at each place.
#[derive(Drop)]
pub struct Kept {
    cells: Vec<Cell>,
}

impl Model for Kept {
    ghost use Rattle.std.specs.Prelude.{ℕ, List, map};
    ghost use Rattle.bac_keep.specs.Held.{IsRising};
    ghost use Rattle.bac_c.specs.Kept.{entry};

    ghost Value = { List (ℕ × List ℕ) };

    ghost view = { λ k. map entry k.cells.items };

    ghost invariant = { λ k. IsRising k.cells.items };
}

/// How many cells at the front have places below this one.
#[tactic(auto, using(crate::proofs::KeptPuts::one_more_below, crate::proofs::KeptPuts::next_from, crate::proofs::KeptPuts::none_next))]
fn count_below(cells: &[Cell], place: u64) -> usize
    ensures within { result ≤ length cells.now }
    ensures below { AreBelow place result cells.now }
    ensures next { IsNextFrom place result cells.now }
{
    for at in 0..cells.len() {
        if cells[at].place >= place {
            return at;
        }
    }
    cells.len()
}

impl Kept {
    /// No cells.
    pub fn new(alloc: Global) -> Kept
        ensures { result ≡ [] }
    {
        Kept {
            cells: Vec::new(alloc),
        }
    }

    /// Puts octets at a place, instead of those that are there.
    #[tactic(auto, using(crate::proofs::KeptPuts::entries_inserted, crate::proofs::KeptPuts::entries_set, crate::proofs::KeptPuts::rising_set, crate::proofs::KeptPuts::rising_apart, crate::proofs::KeptPuts::rising_end))]
    pub fn put(&mut self, alloc: Global, place: u64, octets: &[u8]) -> Result<(), NoMemory>
        ensures put { OnOk result (cells_in self.new ≡ with_cell place octets.now (cells_in self.old)) }
        ensures err { OnErr result (self.new ≡ self.old) }
    {
        let octets = copied_octets(alloc, octets)?;
        let cell = Cell { place, octets };
        let at = count_below(&self.cells, place);
        if at < self.cells.len() && self.cells[at].place == place {
            self.cells[at] = cell;
            return Ok(());
        }
        self.cells.insert(at, cell)?;
        Ok(())
    }

    /// The store that a document and these cells make, as [`restored`] says.
    pub fn over(&self, alloc: Global, document: &Store) -> Result<Store, KeptFault>
        ensures made { IfOk result (λ s. s ≡ overlay (cells_in self.now) document.now) }
        ensures fit { OnOk result (AreFit document.now (cells_in self.now)) }
        ensures fault { IfErr result (λ e. IsWrong e document.now (cells_in self.now)) }
    {
        let store = restored(alloc, document, &self.cells)?;
        Ok(store)
    }
}
