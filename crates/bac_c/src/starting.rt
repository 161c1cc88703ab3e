//! Start.
ghost use Rattle.std.specs.Prelude.{◌≡◌, ◌≢◌, ◌↔◌, false, true, IfOk, IsErrOf, IsTrue, None, OnErr, OnOk, Some};
ghost use Rattle.bac_node.specs.Fresh.{has_large_slots, made_node, window_fits};
ghost use Rattle.bac_store.specs.Described.{IsDescribedBy};
ghost use Rattle.bac_store.specs.Made.{IsMadeOf};
ghost use Rattle.bac_c.specs.Devices.{Holds, IsFresh};
ghost use Rattle.bac_c.specs.Starting.{HasBadSettings, HasHouse, HasStarted, IsHouseWith, IsSetBy, IsStartFault, IsStartStatus, IsStartedNode};
ghost use Rattle.bac_c.specs.Starting.{listed_in, makes, start_statuses};
ghost use Rattle.bac_c.specs.Statuses.{is_one_of, status_of, DESCRIBED_STARTING, HOUSE_STARTING, STARTING};
ghost use Rattle.bac_c.specs.Statuses.{ALREADY_STARTED, BAD_SETTINGS, DONE, NOT_OPEN};

use crate::device::{Device, no_outcome};
use crate::fault::{Fault, status};
use crate::handle::Handle;
use crate::listed::copied_objects;
use crate::records::Settings;
use crate::rule::Rule;
use crate::settings::{config_of, rules_by};
use bac_node::{Config, NewNodeFault, Node};
use bac_store::{Store, house};
use std::alloc::Global;

/// A node with that store, which restarts at a moment if there is one.
fn made(
    alloc: Global,
    config: Config,
    store: Store,
    restart: Option<u64>,
) -> Result<Node, NewNodeFault>
    ensures made { IfOk result (λ n. n ≡ made_node config store restart) }
    ensures slots { IsErrOf result NewNodeFault.BadSlots ↔ (has_large_slots config ≡ false) }
    ensures window { IsErrOf result NewNodeFault.BadWindow ↔ ((has_large_slots config ≡ true) × (window_fits config.window ≡ false)) }
{
    match restart {
        None => Node::with_large_tables(alloc, config, store),
        Some(now) => Node::restarted_with_large_tables(alloc, config, store, now),
    }
}

/// A node of a configuration whose numbers are right.
pub(crate) fn node_of(
    alloc: Global,
    config: Config,
    store: Store,
    restart: Option<u64>,
) -> Result<Node, Fault>
    requires slots { has_large_slots config ≡ true }
    requires window { window_fits config.window ≡ true }
    ensures made { IfOk result (λ n. n ≡ made_node config store restart) }
    ensures memory { OnErr result (IsErrOf result Fault.NoMemory) }
{
    match made(alloc, config, store, restart) {
        Ok(node) => Ok(node),
        // `config_of` has refused such slots and windows
        Err(NewNodeFault::BadSlots | NewNodeFault::BadWindow) => unreachable!(),
        Err(NewNodeFault::NoMemory) => Err(Fault::NoMemory),
    }
}

impl Device {
    /// Starts the node with the objects that are listed, by this rule; it restarts at a moment if there is one. They stay listed where it is not started.
    pub fn start(
        &mut self,
        alloc: Global,
        rule: Rule,
        settings: &Settings,
        restart: Option<u64>,
    ) -> Result<(), Fault>
        ensures started { OnOk result (IsStartedNode (makes rule) settings.now restart (listed_in self.old) self.new.node) }
        ensures reuse { OnOk result (IsSetBy settings.now self.new) }
        ensures fresh { OnOk result (IsFresh self.new) }
        ensures fault { IsStartFault rule settings.now self.old result }
        ensures few { IsTrue (is_one_of (start_statuses rule) (status_of result)) }
        ensures err { OnErr result (self.new ≡ self.old) }
    {
        if self.node.is_some() {
            return Err(Fault::AlreadyStarted);
        }
        let config = config_of(settings)?;
        let Ok(objects) = copied_objects(alloc, &self.listed) else {
            return Err(Fault::NoMemory);
        };
        let store = rule.store(alloc, objects)?;
        let node = node_of(alloc, config, store, restart)?;
        self.listed = Vec::new(alloc);
        self.node = Some(node);
        self.rules = rules_by(settings);
        self.outcome = no_outcome(alloc);
        Ok(())
    }

    /// Starts the node with the house's objects, and with none that are listed.
    pub fn start_house(&mut self, alloc: Global, settings: &Settings) -> Result<(), Fault>
        ensures started { OnOk result (IsHouseWith settings.now self.new.node) }
        ensures reuse { OnOk result (IsSetBy settings.now self.new) }
        ensures fresh { OnOk result (IsFresh self.new) }
        ensures again { IsErrOf result Fault.AlreadyStarted ↔ (self.old.node ≢ None) }
        ensures settings { IsErrOf result Fault.BadSettings ↔ HasBadSettings settings.now self.old }
        ensures few { IsTrue (is_one_of HOUSE_STARTING (status_of result)) }
        ensures open { IsErrOf result Fault.NotOpen → ⊥ }
        ensures err { OnErr result (self.new ≡ self.old) }
    {
        if self.node.is_some() {
            return Err(Fault::AlreadyStarted);
        }
        let config = config_of(settings)?;
        let Ok(store) = house(alloc) else {
            return Err(Fault::NoMemory);
        };
        let node = node_of(alloc, config, store, None)?;
        self.listed = Vec::new(alloc);
        self.node = Some(node);
        self.rules = rules_by(settings);
        self.outcome = no_outcome(alloc);
        Ok(())
    }
}

/// Starts the node with the objects that are listed, by this rule; it restarts at a moment if there is one.
fn start_by(
    alloc: Global,
    handle: &mut Handle,
    rule: Rule,
    settings: &Settings,
    restart: Option<u64>,
) -> u32
    ensures went { result ≡ DONE → HasStarted (makes rule) settings.now restart handle.old.parked.device handle.new.parked.device }
    ensures fresh { result ≡ DONE → Holds IsFresh handle.new.parked.device }
    ensures status { IsStartStatus rule settings.now handle.old.parked.device result }
    ensures few { IsTrue (is_one_of (start_statuses rule) result) }
    ensures err { result ≢ DONE → handle.new.parked.device ≡ handle.old.parked.device }
{
    let Some(mut device) = handle.take(alloc) else {
        return status(Err(Fault::NotOpen));
    };
    let done = device.start(alloc, rule, settings, restart);
    handle.put(device);
    status(done)
}

/// Starts the node, which never ran before, with the objects that are listed.
#[unsafe(no_mangle)]
pub extern "C" fn bac_start(alloc: Global, handle: &mut Handle, settings: &Settings) -> u32
    ensures went { result ≡ DONE → HasStarted IsMadeOf settings.now None handle.old.parked.device handle.new.parked.device }
    ensures fresh { result ≡ DONE → Holds IsFresh handle.new.parked.device }
    ensures status { IsStartStatus Rule.Plain settings.now handle.old.parked.device result }
    ensures few { IsTrue (is_one_of STARTING result) }
    ensures err { result ≢ DONE → handle.new.parked.device ≡ handle.old.parked.device }
{
    start_by(alloc, handle, Rule::Plain, settings, None)
}

/// Starts the node with the objects that are listed, at a moment in milliseconds, after an earlier life that its peers may remember. It turns
/// requests away for 65,000 ms and asks nothing for 75,000 ms.
#[unsafe(no_mangle)]
pub extern "C" fn bac_start_restarted(
    alloc: Global,
    handle: &mut Handle,
    settings: &Settings,
    now: u64,
) -> u32
    ensures went { result ≡ DONE → HasStarted IsMadeOf settings.now (Some now) handle.old.parked.device handle.new.parked.device }
    ensures fresh { result ≡ DONE → Holds IsFresh handle.new.parked.device }
    ensures status { IsStartStatus Rule.Plain settings.now handle.old.parked.device result }
    ensures few { IsTrue (is_one_of STARTING result) }
    ensures err { result ≢ DONE → handle.new.parked.device ≡ handle.old.parked.device }
{
    start_by(alloc, handle, Rule::Plain, settings, Some(now))
}

/// Starts the node, which never ran before, with the objects that are listed, of any type.
#[unsafe(no_mangle)]
pub extern "C" fn bac_start_described(
    alloc: Global,
    handle: &mut Handle,
    settings: &Settings,
) -> u32
    ensures went { result ≡ DONE → HasStarted IsDescribedBy settings.now None handle.old.parked.device handle.new.parked.device }
    ensures fresh { result ≡ DONE → Holds IsFresh handle.new.parked.device }
    ensures status { IsStartStatus Rule.Described settings.now handle.old.parked.device result }
    ensures few { IsTrue (is_one_of DESCRIBED_STARTING result) }
    ensures err { result ≢ DONE → handle.new.parked.device ≡ handle.old.parked.device }
{
    start_by(alloc, handle, Rule::Described, settings, None)
}

/// Starts the node as [`bac_start_described`] does, at a moment in milliseconds, after an earlier life that its peers may remember. It turns requests
/// away for 65,000 ms and asks nothing for 75,000 ms.
#[unsafe(no_mangle)]
pub extern "C" fn bac_start_described_restarted(
    alloc: Global,
    handle: &mut Handle,
    settings: &Settings,
    now: u64,
) -> u32
    ensures went { result ≡ DONE → HasStarted IsDescribedBy settings.now (Some now) handle.old.parked.device handle.new.parked.device }
    ensures fresh { result ≡ DONE → Holds IsFresh handle.new.parked.device }
    ensures status { IsStartStatus Rule.Described settings.now handle.old.parked.device result }
    ensures few { IsTrue (is_one_of DESCRIBED_STARTING result) }
    ensures err { result ≢ DONE → handle.new.parked.device ≡ handle.old.parked.device }
{
    start_by(alloc, handle, Rule::Described, settings, Some(now))
}

/// Starts the node with the house's objects.
#[unsafe(no_mangle)]
pub extern "C" fn bac_start_house(alloc: Global, handle: &mut Handle, settings: &Settings) -> u32
    ensures went { result ≡ DONE → HasHouse settings.now handle.new.parked.device }
    ensures fresh { result ≡ DONE → Holds IsFresh handle.new.parked.device }
    ensures closed { (result ≡ NOT_OPEN) ↔ (handle.old.parked.device ≡ None) }
    ensures again { (result ≡ ALREADY_STARTED) ↔ Holds (λ d. d.node ≢ None) handle.old.parked.device }
    ensures settings { (result ≡ BAD_SETTINGS) ↔ Holds (HasBadSettings settings.now) handle.old.parked.device }
    ensures few { IsTrue (is_one_of HOUSE_STARTING result) }
    ensures err { result ≢ DONE → handle.new.parked.device ≡ handle.old.parked.device }
{
    let Some(mut device) = handle.take(alloc) else {
        return status(Err(Fault::NotOpen));
    };
    let done = device.start_house(alloc, settings);
    handle.put(device);
    status(done)
}
