//! Rows of a simulated world and its twin, which follows one event later: both are the same after each line.
//!
//! Lines are those of scripts, and a few more. `anew NODE WORDS`: the node restarts with the house store as it is after a request. `octets NODE LINK HEX`: a
//! millisecond later the octets arrive from the link of that number; prints whether the node looks at them. `flow COUNT`: the first copies are delivered in
//! order, each once. `run LINE|LINE..`: `World::run` with the events of these lines. `straight CLIENT SERVER REQUEST`: a straight run; prints how many copies it
//! delivers, and how its ask ends. `stores` prints of each node whether its store was the house store and whether it is, `counts` how many copies and facts there
//! are, and `log` the world's log. `rate NODE RATE`: from then on a node's clock goes on by so many parts in a million parts of real time. Where an allocation
//! fails in an event, the world has to be the same as its twin, and the event happens again.
//!
//! `noisy LINE`: before the line each proper prefix of each datagram that was sent arrives at each node of the world. At each node of its twin a
//! datagram without octets arrives.
use crate::lists::keep;
use crate::making::made;
use crate::noise::{all_noise_comes, no_octets_come};
use crate::playing::{Stage, play};
use crate::printing::{print_ending, print_performed, print_request};
use crate::scene::{house_after, link, nodes_of};
use crate::words::request_of;
use bac_apdu::Limits;
use bac_network::{Event, Fact, StraightRun, World, WorldFault, straight};
use bac_rows::row::{Row, after, first, number, number8, number32, place_of};
use bac_service::OwnedRequest;
use bac_simulate::{Ask, Statement, read_statement, simulate_in};
use bac_store::{Store, house};

fn print_fact(fact: &Fact, row: &mut Row) {
    match fact {
        Fact::Asked {
            number,
            client: _,
            server: _,
            request,
        } => print_request(*number as u64, request, row),
        Fact::Performed {
            number,
            request,
            reply,
        } => print_performed(*number as u64, request, reply, row),
        Fact::Ended { number, how } => print_ending(*number as u64, how, row),
        _ => row.fail(),
    }
}

/// Prints a world's log.
fn print_log(world: &World, row: &mut Row) {
    for fact in world.log() {
        print_fact(fact, row);
    }
}

/// Whether the store of a node is that one.
fn has_store(world: &World, node: usize, fresh: &Store) -> bool {
    match world.store(node) {
        Some(store) => store.same(fresh),
        None => false,
    }
}

/// Prints of each node whether its store was that one, and whether it is.
fn compare_stores(world: &World, fresh: &Store, row: &mut Row) {
    for (node, store) in world.opening().iter().enumerate() {
        row.tell("# ", node as u64);
        row.say("house ");
        row.say_truth(store.same(fresh));
        row.tell_truth(" now ", has_store(world, node, fresh));
    }
}

/// Prints of each node whether its store was the house store, and whether it is.
fn print_stores(world: &World, row: &mut Row) {
    match house(row.alloc) {
        Ok(fresh) => compare_stores(world, &fresh, row),
        Err(_) => row.fail(),
    }
}

/// What is printed of an event in which an allocation fails.
const NO_MEMORY: &str = "line 1: fault 4\n";

/// A node restarts with the house store as it is after a request; where an allocation fails, that is printed as scripts do.
fn restart_anew(world: &mut World, words: &str, row: &mut Row) {
    let node = number(words, 0) as usize;
    let store = house_after(after(words, 1), row);
    row.needs(store.is_some());
    let event = Event::Restart { node, store };
    let came = world.step(&event);
    drop(event);
    match came {
        Ok(None) => row.say("restarted anew\n"),
        Err(WorldFault::NoMemory) => row.say(NO_MEMORY),
        _ => row.fail(),
    }
}

/// Makes an event happen, and prints nothing.
fn steps(world: &mut World, event: Event, row: &mut Row) {
    row.needs(world.step(&event).is_ok());
    drop(event);
}

/// Prints how many copies and facts there are.
fn print_counts(world: &World, row: &mut Row) {
    row.tell_two(
        "copies # facts #\n",
        world.copies().len() as u64,
        world.log().len() as u64,
    );
}

/// Whether the latest moment of a node is the world's.
fn has_heard(world: &World, node: usize) -> bool {
    match world.nodes().get(node) {
        Some(it) => it.latest() == world.now(),
        None => false,
    }
}

/// Octets arrive at a node from a link, a millisecond later. A node that looks at octets sets its latest moment; they have no other effect.
fn octets_come(world: &mut World, words: &str, row: &mut Row) {
    let node = number(words, 0) as usize;
    let from = link(number8(words, 1));
    let octets = row.octets(words, 2);
    steps(world, Event::Advance { by: 1 }, row);
    steps(world, Event::Noise { node, from, octets }, row);
    row.say("heard ");
    row.say_truth(has_heard(world, node));
    row.put(b' ');
    print_counts(world, row);
}

/// Delivers so many copies, each once, in the order of sending.
fn flow(world: &mut World, count: usize, row: &mut Row) {
    for number in 0..count {
        steps(world, Event::Deliver { number }, row);
    }
    print_counts(world, row);
}

/// What a node takes.
fn limits_at(world: &World, node: usize) -> Option<Limits> {
    match world.nodes().get(node) {
        Some(node) => Some(node.settings().limits),
        None => None,
    }
}

/// The event of an ask, by what the asked node takes.
fn ask_event(world: &World, ask: Ask) -> Option<Event> {
    match limits_at(world, ask.server as usize) {
        Some(limits) => Some(Event::Ask {
            client: ask.client as usize,
            server: ask.server as usize,
            limits,
            request: ask.request,
        }),
        None => {
            drop(ask);
            None
        }
    }
}

/// The event of a statement.
fn event_of(world: &World, statement: Statement) -> Option<Event> {
    match statement {
        Statement::Ask(ask) => ask_event(world, ask),
        Statement::Deliver(number) => Some(Event::Deliver {
            number: number as usize,
        }),
        Statement::Tick(node) => Some(Event::Tick {
            node: node as usize,
        }),
        Statement::Advance(by) => Some(Event::Advance { by }),
        other => {
            drop(other);
            None
        }
    }
}

/// Adds the event of a script's line.
fn put_event(world: &World, line: &str, events: &mut Vec<Event>, row: &mut Row) {
    let event = match read_statement(row.alloc, line.as_bytes()) {
        Ok(statement) => event_of(world, statement),
        Err(_) => None,
    };
    match event {
        Some(event) => keep(event, events, row),
        None => row.fail(),
    }
}

/// Runs the events of these lines by one call.
fn run(world: &mut World, lines: &str, row: &mut Row) {
    let mut events = Vec::new(row.alloc);
    for line in lines.lines() {
        put_event(world, line, &mut events, row);
    }
    match world.run(&events) {
        Ok(()) => row.tell("# events ran\n", events.len() as u64),
        Err(stopped) => row.tell_two(
            "fault # at event #\n",
            u64::from(stopped.fault.number()),
            stopped.place as u64,
        ),
    }
}

fn print_straight(world: &World, run: &StraightRun, row: &mut Row) {
    row.tell("# deliveries\n", run.deliveries as u64);
    match (run.ask, run.ending(world)) {
        (Some(ask), Some(how)) => print_ending(ask as u64, how, row),
        (Some(ask), None) => row.tell("# is open\n", ask as u64),
        (None, _) => row.say("refused\n"),
    }
}

/// A node asks another one; each copy is delivered once, in order of sending, until the ask has ended.
fn runs_straight(
    world: &mut World,
    client: usize,
    server: usize,
    request: OwnedRequest,
    row: &mut Row,
) {
    match straight(world, client, server, request) {
        Ok(run) => print_straight(world, &run, row),
        Err(fault) => row.tell("fault #\n", u64::from(fault.number())),
    }
}

fn goes_straight(world: &mut World, words: &str, row: &mut Row) {
    let (client, server) = (number(words, 0) as usize, number(words, 1) as usize);
    if let Some(request) = request_of(after(words, 2), row) {
        runs_straight(world, client, server, request, row);
    }
}

/// The clock of a node is faster or slower from then on.
fn set_rate(world: &mut World, words: &str, row: &mut Row) {
    match world.set_pace(number(words, 0) as usize, number32(words, 1)) {
        Ok(()) => row.say("paced\n"),
        Err(fault) => row.line(fault),
    }
}

/// Prints the result of a script's line, into an empty text; a line that is not one is a fault.
fn simulates(world: &mut World, line: &str, row: &mut Row) {
    let mut err = Vec::new(row.alloc);
    let status = simulate_in(row.alloc, world, line.as_bytes(), &mut row.told, &mut err).code();
    let is_fault = row.told.starts_with(b"line 1: fault ");
    row.needs(err.is_empty() && status == u8::from(is_fault));
}

/// What a line says that scripts don't have.
const VERBS: &str = "anew octets flow run straight counts stores log rate";

/// Prints the result of a line, into an empty text.
fn happens(world: &mut World, line: &str, row: &mut Row) {
    let (verb, words) = first(line);
    match place_of(VERBS, verb) {
        0 => restart_anew(world, words, row),
        1 => octets_come(world, words, row),
        2 => flow(world, number(words, 0) as usize, row),
        3 => run(world, words, row),
        4 => goes_straight(world, words, row),
        5 => print_counts(world, row),
        6 => print_stores(world, row),
        7 => print_log(world, row),
        8 => set_rate(world, words, row),
        _ => simulates(world, line, row),
    }
}

/// Two worlds of a scene.
#[derive(Drop)]
struct Twins {
    world: World,
    twin: World,
}

impl Twins {
    /// Prints the result of a line in the world, into an empty text: of the second time where an allocation fails in the first.
    fn world_meets(&mut self, line: &str, told: &mut Row) {
        happens(&mut self.world, line, told);
        if told.told.as_slice() == NO_MEMORY.as_bytes() {
            told.told.clear();
            if !self.world.same(&self.twin) {
                told.say("changed without memory\n");
            }
            happens(&mut self.world, line, told);
        }
    }

    /// Compares the result at the twin; that an allocation fails there is a fault.
    fn twin_meets(&mut self, told: &[u8], line: &str, row: &mut Row) {
        let mut other = Row::new(row.alloc);
        happens(&mut self.twin, line, &mut other);
        row.needs(!other.has_failed && other.told.as_slice() != NO_MEMORY.as_bytes());
        if other.told.as_slice() != told {
            row.say("otherwise at the twin\n");
        }
    }

    /// Prints the result of a line at both.
    fn both_meet(&mut self, line: &str, row: &mut Row) {
        let mut told = Row::new(row.alloc);
        self.world_meets(line, &mut told);
        row.take(&told);
        self.twin_meets(&told.told, line, row);
    }

    /// Noise comes to the world; both have heard of the moment then.
    fn noise_comes(&mut self, row: &mut Row) {
        all_noise_comes(&mut self.world, row);
        no_octets_come(&mut self.world, row);
        no_octets_come(&mut self.twin, row);
    }
}

impl Stage for Twins {
    fn meets(&mut self, line: &str, row: &mut Row) {
        match line.strip_prefix("noisy ") {
            Some(line) => {
                self.noise_comes(row);
                self.both_meet(line, row);
            }
            None => self.both_meet(line, row),
        }
    }

    fn is_sound(&self) -> bool {
        self.world.same(&self.twin)
    }
}

/// A world of a scene; None is a fault.
fn world_of(scene: &str, row: &mut Row) -> Option<World> {
    let world = made(scene, nodes_of(scene, 0, row), row).ok();
    row.needs(world.is_some());
    world
}

/// Plays the lines of a row in two worlds of a scene.
fn play_twins(mut twins: Twins, scene: &str, lines: &str, row: &mut Row) {
    play(&mut twins, scene, lines, row);
    drop(twins);
}

/// Plays the lines of a row in a world of a scene and its twin.
fn play_beside(world: World, scene: &str, lines: &str, row: &mut Row) {
    match world_of(scene, row) {
        Some(twin) => play_twins(Twins { world, twin }, scene, lines, row),
        None => drop(world),
    }
}

/// Plays the lines of a row in a world of a scene.
pub(crate) fn play_world(scene: &str, lines: &str, row: &mut Row) {
    if let Some(world) = world_of(scene, row) {
        play_beside(world, scene, lines, row);
    }
}
