//! Command lines.
use crate::bench::{BenchMachine, Bound};
use crate::files::Files;
use crate::scene::{Place, Scene, Setup, is_setup, scene_of};
use crate::sink::Sink;
use crate::spelling::text_of;
use bac_command_line::run;
use bac_driver::{Clock, MonotonicClock, UdpLink};
use bac_pairs::{ClientPair, PairKey, left_at, pair_at};
use bac_system::System;
use std::alloc::Global;
use std::io::{ErrorKind, Write};

/// Appends the words of a text without quotes.
fn put_words(alloc: Global, text: &str, words: &mut Vec<String>) -> Option<()> {
    for word in text.split(' ') {
        if !word.is_empty() {
            words.push(text_of(alloc, word)?).ok()?;
        }
    }
    Some(())
}

/// The words of a command line, after the name of the program.
fn words_of(alloc: Global, line: &str) -> Option<Vec<String>> {
    let mut words = Vec::new(alloc);
    put_words(alloc, "bac", &mut words)?;
    for (place, part) in line.split('"').enumerate() {
        if place % 2 == 0 {
            put_words(alloc, part, &mut words)?;
        } else {
            words.push(text_of(alloc, part)?).ok()?;
        }
    }
    Some(words)
}

/// A command line on a machine.
#[derive(Drop)]
pub(crate) struct Command<'a> {
    rt: &'a HostRuntime,
    words: Vec<String>,
    setup: Setup<'a>,
    scene: Scene<'a>,
    /// The port that is taken on the machine that plays the rows.
    taken: Option<UdpLink>,
}

/// How a command line ended.
#[derive(Clone, Copy)]
pub(crate) struct Ended {
    /// Its exit status.
    pub code: u8,
    /// Where its last link was bound; None where that is not known.
    pub bound: Option<Option<Bound>>,
    /// How many milliseconds it took on the machine that plays the rows.
    pub took: u64,
}

/// The port that is taken there.
fn taken_on(rt: &HostRuntime, place: Place) -> Option<Option<UdpLink>> {
    match place {
        Place::Machine(Some(port)) => Some(Some(UdpLink::bind(rt, port).ok()?)),
        _ => Some(None),
    }
}

impl<'a> Command<'a> {
    /// The command line of a scene; None where they have no meaning.
    pub(crate) fn new(rt: &'a HostRuntime, setup: Setup<'a>, line: &str) -> Option<Command<'a>> {
        if !is_setup(setup.row) || !is_setup(setup.group) {
            return None;
        }
        let scene = scene_of(setup)?;
        Some(Command {
            rt,
            words: words_of(rt.alloc(), line)?,
            setup,
            scene,
            taken: taken_on(rt, scene.place)?,
        })
    }

    /// Standard output, which may fail.
    pub(crate) fn output(&self) -> Sink {
        let alloc = self.rt.alloc();
        if self.setup.has("output") {
            Sink::weak(alloc, 0, ErrorKind::PermissionDenied)
        } else {
            Sink::new(alloc)
        }
    }

    /// Standard error, which may fail.
    pub(crate) fn errors(&self) -> Sink {
        let mut err = Sink::new(self.rt.alloc());
        if let Some(heading) = self.setup.line("errors") {
            err.failures = if heading.words == "fail once" {
                1
            } else {
                u32::MAX
            };
        }
        err
    }

    /// What comes of it beside files.
    pub(crate) fn run(&self, files: &Files<'_>, out: &mut Sink, err: &mut Sink) -> Ended {
        match self.scene.place {
            Place::Bench => self.run_on_bench(files, out, err),
            Place::Machine(_) => self.run_on_machine(out, err),
            Place::Pairs => self.print_pair(out),
        }
    }

    /// What comes of it beside files in memory.
    fn run_on_bench(&self, files: &Files<'_>, out: &mut Sink, err: &mut Sink) -> Ended {
        let alloc = self.rt.alloc();
        let machine = BenchMachine::new(alloc, self.setup, self.scene);
        let code = run(alloc, &self.words, files, &machine, out, err).code();
        Ended {
            code,
            bound: Some(machine.bound.get()),
            took: 0,
        }
    }

    /// What comes of it on the machine that plays the rows, and how long that took by a clock that was made before.
    fn run_on_machine(&self, out: &mut Sink, err: &mut Sink) -> Ended {
        let clock = MonotonicClock::new(self.rt).ok();
        let system = System::new(self.rt, false, false);
        let code = run(self.rt.alloc(), &self.words, &system, &system, out, err).code();
        let took = match clock {
            Some(mut clock) => clock.now(),
            None => 0,
        };
        Ended {
            code,
            bound: None,
            took,
        }
    }

    /// Prints the port and the first invoke ID of a client that begins at a moment, by the key of a secret. Behind them is how much of its share is
    /// left.
    fn put_pair(&self, out: &mut Sink) -> Option<()> {
        let key = PairKey::of_secret(self.words.get(1)?.as_bytes());
        let moment = self.words.get(2)?.parse::<u64>().ok()?;
        let ClientPair { port, first_id } = pair_at(&key, moment);
        let left = left_at(moment);
        writeln!(out, "{port} {first_id} {left}").ok()
    }

    /// Prints the pair of a client as `put_pair` does; status 2 where the word is no moment.
    fn print_pair(&self, out: &mut Sink) -> Ended {
        let code = match self.put_pair(out) {
            Some(()) => 0,
            None => 2,
        };
        Ended {
            code,
            bound: None,
            took: 0,
        }
    }
}
