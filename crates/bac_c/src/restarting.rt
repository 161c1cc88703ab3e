//! Start of a node with kept cells over the store of its objects.
ghost use Rattle.std.specs.Prelude.{◌≡◌, ◌≢◌, true, IfErr, IfOk, IsErrOf, IsTrue, OnErr, OnOk, Some};
ghost use Rattle.bac_keep.specs.Overlay.{overlay};
ghost use Rattle.bac_node.specs.Fresh.{has_large_slots, made_node, window_fits};
ghost use Rattle.bac_store.specs.Described.{IsDescribedBy};
ghost use Rattle.bac_store.specs.Made.{IsMadeOf};
ghost use Rattle.bac_c.specs.Devices.{Holds, IsFreshWithCells};
ghost use Rattle.bac_c.specs.Fitting.{AreFit, IsUnfitAt};
ghost use Rattle.bac_c.specs.Keeping.{HasRestored, IsRestoredNode, PutsUnfit, TellsUnfit};
ghost use Rattle.bac_c.specs.Kept.{cells_in};
ghost use Rattle.bac_c.specs.Starting.{IsSetBy, IsStartFault, IsStartStatus, kept_statuses, listed_in, makes};
ghost use Rattle.bac_c.specs.Statuses.{fault_number, is_one_of, status_of, DESCRIBED_RESTORING, DONE, RESTORING, WITH_CELLS};

use crate::device::{Device, no_outcome};
use crate::fault::{Fault, status};
use crate::handle::Handle;
use crate::kept::Kept;
use crate::kept_fault::KeptFault;
use crate::listed::copied_objects;
use crate::records::Settings;
use crate::rule::Rule;
use crate::settings::{config_of, rules_by};
use crate::starting::node_of;
use bac_node::{Config, Node};
use bac_store::Store;
use std::alloc::Global;

/// A node that restarts at a moment, of a configuration whose numbers are right, with kept cells over a store. Where a cell does not fit, its place is put out.
fn restored_node(
    alloc: Global,
    config: Config,
    document: &Store,
    kept: &Kept,
    now: u64,
    place: &mut u64,
) -> Result<Node, Fault>
    requires slots { has_large_slots config ≡ true }
    requires window { window_fits config.window ≡ true }
    ensures made { IfOk result (λ n. n ≡ made_node config (overlay (cells_in kept.now) document.now) (Some now)) }
    ensures few { IfErr result (λ e. IsTrue (is_one_of WITH_CELLS (fault_number e))) }
    ensures fit { OnOk result (AreFit document.now (cells_in kept.now)) }
    ensures unfit { IsErrOf result Fault.BadValue → IsUnfitAt document.now (cells_in kept.now) place.new }
    ensures kept { (IsErrOf result Fault.BadValue → ⊥) → place.new ≡ place.old }
{
    match kept.over(alloc, document) {
        Ok(store) => node_of(alloc, config, store, Some(now)),
        Err(KeptFault::NoMemory) => Err(Fault::NoMemory),
        Err(KeptFault::Wrong { place: wrong }) => {
            *place = wrong;
            Err(Fault::BadValue)
        }
    }
}

impl Device {
    /// The node runs, as the settings say, and nothing is listed any more.
    fn run(&mut self, alloc: Global, node: Node, settings: &Settings)
        ensures node { self.new.node ≡ Some node }
        ensures reuse { IsSetBy settings.now self.new }
        ensures fresh { IsFreshWithCells self.new }
    {
        self.listed = Vec::new(alloc);
        self.kept = Kept::new(alloc);
        self.node = Some(node);
        self.rules = rules_by(settings);
        self.outcome = no_outcome(alloc);
    }

    /// Starts the node, which restarts at a moment, with the cells that are listed over the store that the listed objects make by this rule. All stay listed
    /// where it is not started; where a cell does not fit, its place is put out.
    pub fn start_kept(
        &mut self,
        alloc: Global,
        rule: Rule,
        settings: &Settings,
        now: u64,
        place: &mut u64,
    ) -> Result<(), Fault>
        ensures started { OnOk result (IsRestoredNode (makes rule) settings.now now (listed_in self.old) (cells_in self.old.kept) self.new.node) }
        ensures reuse { OnOk result (IsSetBy settings.now self.new) }
        ensures fresh { OnOk result (IsFreshWithCells self.new) }
        ensures fault { IsStartFault rule settings.now self.old result }
        ensures place { PutsUnfit (makes rule) self.old result place.old place.new }
        ensures few { IsTrue (is_one_of (kept_statuses rule) (status_of result)) }
        ensures err { OnErr result (self.new ≡ self.old) }
    {
        if self.node.is_some() {
            return Err(Fault::AlreadyStarted);
        }
        let config = config_of(settings)?;
        let Ok(objects) = copied_objects(alloc, &self.listed) else {
            return Err(Fault::NoMemory);
        };
        let document = rule.store(alloc, objects)?;
        let node = restored_node(alloc, config, &document, &self.kept, now, place)?;
        self.run(alloc, node, settings);
        Ok(())
    }
}

/// Starts the node again with the objects that are listed and, over the store that they make by this rule, the cells that are listed.
fn start_kept_by(
    alloc: Global,
    handle: &mut Handle,
    rule: Rule,
    settings: &Settings,
    now: u64,
    place: &mut u64,
) -> u32
    ensures went { result ≡ DONE → HasRestored (makes rule) settings.now now handle.old.parked.device handle.new.parked.device }
    ensures fresh { result ≡ DONE → Holds IsFreshWithCells handle.new.parked.device }
    ensures status { IsStartStatus rule settings.now handle.old.parked.device result }
    ensures place { TellsUnfit (makes rule) handle.old.parked.device result place.old place.new }
    ensures few { IsTrue (is_one_of (kept_statuses rule) result) }
    ensures err { result ≢ DONE → handle.new.parked.device ≡ handle.old.parked.device }
{
    let Some(mut device) = handle.take(alloc) else {
        return status(Err(Fault::NotOpen));
    };
    let done = device.start_kept(alloc, rule, settings, now, place);
    handle.put(device);
    status(done)
}

/// Starts the node again with the objects that are listed and, over their values, the cells that are listed. The start is at a moment in
/// milliseconds, after an earlier life that its peers may remember. It turns requests away for 65,000 ms and asks nothing for 75,000 ms.
#[unsafe(no_mangle)]
pub extern "C" fn bac_start_kept(
    alloc: Global,
    handle: &mut Handle,
    settings: &Settings,
    now: u64,
    place: &mut u64,
) -> u32
    ensures went { result ≡ DONE → HasRestored IsMadeOf settings.now now handle.old.parked.device handle.new.parked.device }
    ensures fresh { result ≡ DONE → Holds IsFreshWithCells handle.new.parked.device }
    ensures status { IsStartStatus Rule.Plain settings.now handle.old.parked.device result }
    ensures place { TellsUnfit IsMadeOf handle.old.parked.device result place.old place.new }
    ensures few { IsTrue (is_one_of RESTORING result) }
    ensures err { result ≢ DONE → handle.new.parked.device ≡ handle.old.parked.device }
{
    start_kept_by(alloc, handle, Rule::Plain, settings, now, place)
}

/// Starts the node again as [`bac_start_kept`] does, with objects of any type.
#[unsafe(no_mangle)]
pub extern "C" fn bac_start_described_kept(
    alloc: Global,
    handle: &mut Handle,
    settings: &Settings,
    now: u64,
    place: &mut u64,
) -> u32
    ensures went { result ≡ DONE → HasRestored IsDescribedBy settings.now now handle.old.parked.device handle.new.parked.device }
    ensures fresh { result ≡ DONE → Holds IsFreshWithCells handle.new.parked.device }
    ensures status { IsStartStatus Rule.Described settings.now handle.old.parked.device result }
    ensures place { TellsUnfit IsDescribedBy handle.old.parked.device result place.old place.new }
    ensures few { IsTrue (is_one_of DESCRIBED_RESTORING result) }
    ensures err { result ≢ DONE → handle.new.parked.device ≡ handle.old.parked.device }
{
    start_kept_by(alloc, handle, Rule::Described, settings, now, place)
}
