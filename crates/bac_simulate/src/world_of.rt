//! The network of a script, and its events.
ghost use Rattle.std.specs.Prelude.{◌≡◌, ◌<◌, IfOk, None, map};
ghost use Rattle.std.specs.List.{list_any};
ghost use Rattle.bac_value.specs.Views.{object_identifier_view};
ghost use Rattle.bac_apdu.specs.Views.{limits_view};
ghost use Rattle.bac_store.specs.AtNode.Change.{Value, File};
ghost use Rattle.bac_network.specs.declared.fault.NewClocksFault.TheVariants as clocks_fault;
ghost use Rattle.bac_network.specs.declared.fault.NewWorldFault.TheVariants as new_fault;
ghost use Rattle.bac_service.specs.Views.{owned_request_view};
ghost use Rattle.bac_simulate.specs.Happenings.Happening.{AskStranger as AsksStranger, BeginAgain as BeginsAgain, Change as Changes, Stranger as OfStranger};
ghost use Rattle.bac_simulate.specs.Houses.{clock_world_set, is_of_clock, link_at, makers_from, script_world, start_after, start_by, starts_from, world_set};
ghost use Rattle.bac_world.specs.World.{peer_at};
ghost use Rattle.bac_simulate.specs.Scripts.{IsModest, limits_in, most_limits, said_by};
ghost use Rattle.bac_simulate.specs.Views.{happening_view, line_view, setting_view, statement_view};

use crate::line::{AskStranger, SetFile, SetProperty, Setting, Statement, Stranger};
use crate::script::ScriptLine;
use bac_apdu::Limits;
use bac_network::{Config, Event, NewClocksFault, NewWorldFault, Pace, World};
use bac_npdu::{LinkAddress, Peer};
use bac_store::{Change, Store, house};
use bac_value::NoMemory;
use std::alloc::Global;

/// APDUs of 1,476 octets, and any number of segments.
const LIMITS: Limits = Limits {
    max_apdu: 5,
    takes_segments: true,
    max_segments: 7,
};

/// The link of no node.
const NOWHERE: LinkAddress = [0, 0, 0, 0, 0, 0];

/// The link of a node: 127.0.0.1, and for the first node the UDP port 47,808 (BAC0 in hexadecimal); each node after it has the next one.
fn link_of(node: u8) -> LinkAddress
    requires { node < 64 }
    ensures { result ≡ link_at node }
{
    [127, 0, 0, 1, 0xBA, 0xC0 + node]
}

/// What the nodes of a setting are made of: each has those limits, and a house store of its own.
fn nodes_of(
    alloc: Global,
    setting: &Setting,
    limits: Limits,
) -> Result<Vec<(Config, Store)>, NoMemory>
    requires { setting.now.nodes < 64 }
    ensures { IfOk result (λ nodes. nodes.items ≡ makers_from limits setting.now.window 0 setting.now.nodes) }
{
    let mut nodes = Vec::new(alloc);
    for node in 0..setting.nodes {
        let config = Config {
            link: link_of(node),
            limits,
            window: setting.window,
            client_slots: 64,
            reply_slots: 64,
        };
        nodes.push((config, house(alloc)?))?;
    }
    Ok(nodes)
}

/// The network that the first line of a script sets: nothing but memory can be wanting.
pub(crate) fn world_of(alloc: Global, setting: &Setting) -> Result<World, NoMemory>
    requires { IsModest (setting_view setting.now) }
    ensures { IfOk result (λ w. w ≡ world_set (setting_view setting.now)) }
{
    let nodes = nodes_of(alloc, setting, LIMITS)?;
    match World::new(alloc, nodes, u64::from(setting.overtake)) {
        Ok(world) => Ok(world),
        Err(NewWorldFault::NoMemory) => Err(NoMemory),
        // each node has a port of its own, and `read_setting` bounds all numbers
        Err(NewWorldFault::SameLink) => unreachable!(),
        Err(NewWorldFault::BadSlots) => unreachable!(),
        Err(NewWorldFault::BadWindow) => unreachable!(),
        Err(NewWorldFault::BadBound) => unreachable!(),
    }
}

/// Clocks are by at most 1,000 parts in a million fast or slow, as far as a system that sets its clock may let it run. Copies then live 4,873 ms.
const PACE: Pace = Pace {
    drift: 1_000,
    life: 4_873,
};

/// Whether a line speaks of a clock.
fn is_of_clock(said: &ScriptLine) -> bool
    ensures { result ≡ is_of_clock (line_view said.now) }
{
    match said {
        ScriptLine::Began(_) | ScriptLine::Paced(_) => true,
        ScriptLine::Happens(_) | ScriptLine::Lost(_) | ScriptLine::Note => false,
    }
}

/// Whether one of these lines does.
fn speak_of_clocks(lines: &[ScriptLine]) -> bool
    ensures { result ≡ list_any is_of_clock (map line_view lines.now) }
{
    for said in lines {
        if is_of_clock(said) {
            return true;
        }
    }
    false
}

/// Where a node's clock begins after a line, if it began there before.
fn start_by(node: u8, before: u32, said: &ScriptLine) -> u32
    ensures { result ≡ start_by node before (line_view said.now) }
{
    match said {
        ScriptLine::Began(clock) => {
            if clock.node == u64::from(node) {
                clock.start
            } else {
                before
            }
        }
        ScriptLine::Happens(_) | ScriptLine::Lost(_) | ScriptLine::Note | ScriptLine::Paced(_) => {
            before
        }
    }
}

/// Where a node's clock begins: as the last line says that speaks of that, and otherwise at 0.
fn start_of(node: u8, lines: &[ScriptLine]) -> u32
    ensures { result ≡ start_after node 0 (map line_view lines.now) }
{
    let mut start = 0;
    for said in lines {
        start = start_by(node, start, said);
    }
    start
}

/// Where the clocks of so many nodes begin.
fn starts_of(alloc: Global, nodes: u8, lines: &[ScriptLine]) -> Result<Vec<u32>, NoMemory>
    ensures { IfOk result (λ starts. starts.items ≡ starts_from (map line_view lines.now) 0 nodes) }
{
    let mut starts = Vec::new(alloc);
    for node in 0..nodes {
        starts.push(start_of(node, lines))?;
    }
    Ok(starts)
}

/// Nothing but memory can be wanting.
fn memory_alone(fault: NewClocksFault) -> NoMemory
    requires { fault ≡ clocks_fault.NotMade new_fault.NoMemory }
{
    // by what is required it is no other fault
    let _fault = fault;
    NoMemory
}

/// The network that the first line of a script sets, in which each node has a clock of its own that begins as these lines say.
fn clock_world_of(alloc: Global, setting: &Setting, lines: &[ScriptLine]) -> Result<World, NoMemory>
    requires { IsModest (setting_view setting.now) }
    ensures { IfOk result (λ w. w ≡ clock_world_set (setting_view setting.now) (starts_from (map line_view lines.now) 0 setting.now.nodes)) }
{
    let nodes = nodes_of(alloc, setting, LIMITS)?;
    let starts = starts_of(alloc, setting.nodes, lines)?;
    match World::with_clocks(alloc, nodes, u64::from(setting.overtake), PACE, &starts) {
        Ok(world) => Ok(world),
        Err(fault) => Err(memory_alone(fault)),
    }
}

/// The network of a script, by the one that its first line sets: another one where its lines speak of clocks.
pub(crate) fn script_world_of(
    alloc: Global,
    setting: &Setting,
    plain: World,
    lines: &[ScriptLine],
) -> Result<World, NoMemory>
    requires modest { IsModest (setting_view setting.now) }
    requires plain { plain ≡ world_set (setting_view setting.now) }
    ensures { IfOk result (λ w. w ≡ script_world (setting_view setting.now) (map line_view lines.now)) }
{
    if speak_of_clocks(lines) {
        clock_world_of(alloc, setting, lines)
    } else {
        Ok(plain)
    }
}

/// What a node takes of APDUs as a server: segmented requests whatever its SA bit says of its replies. Where there is no such node, everything.
fn limits_of(world: &World, node: usize) -> Limits
    ensures { limits_view result ≡ limits_in world.now.nodes node }
{
    match world.nodes().get(node) {
        Some(node) => {
            let limits = node.settings().limits;
            Limits {
                max_apdu: limits.max_apdu,
                takes_segments: true,
                max_segments: limits.max_segments,
            }
        }
        None => LIMITS,
    }
}

/// A node changes a property of its own store.
fn value_change(set: SetProperty) -> Event
    ensures { happening_view result ≡ Changes set.node (Value (object_identifier_view set.object) set.property set.octets.items) }
{
    Event::Change {
        node: set.node as usize,
        change: Change::Value {
            object: set.object,
            property: set.property,
            octets: set.octets,
        },
    }
}

/// A node changes a file of its own store.
fn file_change(set: SetFile) -> Event
    ensures { happening_view result ≡ Changes set.node (File (object_identifier_view set.object) set.octets.items) }
{
    Event::Change {
        node: set.node as usize,
        change: Change::File {
            object: set.object,
            octets: set.octets,
        },
    }
}

/// Octets of a stranger come to a node.
fn stranger_event(stranger: Stranger) -> Event
    ensures { happening_view result ≡ OfStranger stranger.node stranger.link stranger.octets.items }
{
    let from = stranger.link;
    Event::Stranger {
        node: stranger.node as usize,
        from,
        octets: stranger.octets,
    }
}

/// A node asks a stranger, and takes it to accept the most.
fn stranger_ask(ask: AskStranger) -> Event
    ensures { happening_view result ≡ AsksStranger ask.client (peer_at ask.link) most_limits (owned_request_view ask.request) }
{
    let link = ask.link;
    Event::AskStranger {
        node: ask.client as usize,
        peer: Peer { link, route: None },
        limits: LIMITS,
        request: ask.request,
    }
}

/// Another program begins at a node, with the store that is there.
fn begun_again(node: u64) -> Event
    ensures { happening_view result ≡ BeginsAgain node 0 None }
{
    Event::BeginAgain {
        node: node as usize,
        first_id: 0,
        store: None,
    }
}

/// What a line says in a world: who asks knows what the other node takes.
pub(crate) fn said_by(world: &World, step: Statement) -> ScriptLine
    ensures { line_view result ≡ said_by (limits_in world.now.nodes) (statement_view step) }
{
    match step {
        Statement::Ask(ask) => ScriptLine::Happens(Event::Ask {
            client: ask.client as usize,
            server: ask.server as usize,
            limits: limits_of(world, ask.server as usize),
            request: ask.request,
        }),
        Statement::Deliver(number) => ScriptLine::Happens(Event::Deliver {
            number: number as usize,
        }),
        Statement::Lose(number) => ScriptLine::Lost(number),
        Statement::Noise(noise) => ScriptLine::Happens(Event::Noise {
            node: noise.node as usize,
            from: NOWHERE,
            octets: noise.octets,
        }),
        Statement::Tick(node) => ScriptLine::Happens(Event::Tick {
            node: node as usize,
        }),
        Statement::Advance(by) => ScriptLine::Happens(Event::Advance { by }),
        Statement::SetProperty(set) => ScriptLine::Happens(value_change(set)),
        Statement::SetFile(set) => ScriptLine::Happens(file_change(set)),
        Statement::Restart(node) => ScriptLine::Happens(Event::Restart {
            node: node as usize,
            store: None,
        }),
        Statement::Begin(node) => ScriptLine::Happens(Event::Begin {
            node: node as usize,
        }),
        Statement::BeginAgain(node) => ScriptLine::Happens(begun_again(node)),
        Statement::Stranger(stranger) => ScriptLine::Happens(stranger_event(stranger)),
        Statement::AskStranger(ask) => ScriptLine::Happens(stranger_ask(ask)),
        Statement::Clock(clock) => ScriptLine::Began(clock),
        Statement::Pace(clock) => ScriptLine::Paced(clock),
    }
}
