//! The scene of a row: the lines above its command line, and those of its group.
use crate::behind::{Behind, behind_of};
use crate::lines::{Heading, after, first, headed, named};
use bac_driver::Clock;

/// How a clock goes each time that it is looked at.
#[derive(Clone, Copy)]
enum Pace {
    /// On by so many milliseconds.
    On(u64),
    /// Back by so many.
    Back(u64),
}

/// A clock that goes so from a moment on.
#[derive(Clone, Copy)]
pub(crate) struct BenchClock {
    pub moment: u64,
    pace: Pace,
}

impl BenchClock {
    /// One that stands at 0.
    pub(crate) fn still() -> BenchClock {
        BenchClock {
            moment: 0,
            pace: Pace::On(0),
        }
    }
}

impl Clock for BenchClock {
    ghost use Rattle.std.specs.Prelude.{None};

    ghost told = { λ c. record { last = c.moment; all = None } };

    fn now(&mut self) -> u64 {
        self.moment = match self.pace {
            Pace::On(step) => self.moment.saturating_add(step),
            Pace::Back(step) => self.moment.saturating_sub(step),
        };
        self.moment
    }
}

/// The lines that set a scene.
#[derive(Clone, Copy)]
pub(crate) struct Setup<'a> {
    /// Those of the row, which count first.
    pub row: &'a str,
    /// Those of its group.
    pub group: &'a str,
}

impl<'a> Setup<'a> {
    /// The first line that begins with a word.
    pub(crate) fn line(&self, word: &str) -> Option<Heading<'a>> {
        match headed(self.row, word) {
            Some(heading) => Some(heading),
            None => headed(self.group, word),
        }
    }

    /// The line of that number that begins with a word and a name.
    pub(crate) fn named(&self, word: &str, name: &str, number: usize) -> Option<Heading<'a>> {
        match named(self.row, word, name, number) {
            Some(heading) => Some(heading),
            None => named(self.group, word, name, number),
        }
    }

    /// Whether a line that begins with that word is there.
    pub(crate) fn has(&self, word: &str) -> bool {
        self.line(word).is_some()
    }
}

/// The words that begin lines of a setup.
const WORDS: &[&str] = &[
    "|", "#", "links", "clock", "day", "file", "hex", "disk", "database", "terminal", "screen",
    "errors", "output", "taken", "source", "way", "machine", "pairs", "built", "full",
];

/// Whether each line of a text begins with a word that sets a scene.
pub(crate) fn is_setup(text: &str) -> bool {
    text.lines().all(|line| WORDS.contains(&first(line).0))
}

/// What a command line runs on.
#[derive(Clone, Copy)]
pub(crate) enum Place {
    /// A machine in memory.
    Bench,
    /// The machine that plays the rows, with that port taken.
    Machine(Option<u16>),
    /// Nothing: it is the moment at which a client begins.
    Pairs,
}

/// What a command line runs on, and what a machine in memory has.
#[derive(Clone, Copy)]
pub(crate) struct Scene<'a> {
    pub place: Place,
    pub behind: Behind<'a>,
    pub clock: Option<BenchClock>,
    /// How many milliseconds the time of day goes on each time that it is looked at.
    pub day: u64,
    /// How many of the ports are taken at which clients begin; None where a client begins at any free port.
    pub taken: Option<u16>,
    /// From which time on that it is asked standard error has no room, and from which on it has some again.
    pub full: Option<(u64, u64)>,
    /// The address that it sends from, where no line `way` says another.
    pub source: Option<[u8; 4]>,
    pub is_terminal: bool,
    /// Whether standard output is a terminal.
    pub is_screen: bool,
}

/// `MOMENT +STEP` or `MOMENT -STEP`.
fn clock_of(words: &str) -> Option<BenchClock> {
    let (moment, step) = first(words);
    let moment = moment.parse::<u64>().ok()?;
    let pace = match step.strip_prefix('-') {
        Some(step) => Pace::Back(step.parse::<u64>().ok()?),
        None => Pace::On(step.strip_prefix('+')?.parse::<u64>().ok()?),
    };
    Some(BenchClock { moment, pace })
}

/// The clock of a scene; it may have none.
fn clock_in(setup: Setup<'_>) -> Option<Option<BenchClock>> {
    match setup.line("clock") {
        Some(Heading { words: "none", .. }) => Some(None),
        Some(heading) => Some(Some(clock_of(heading.words)?)),
        None => Some(Some(BenchClock {
            moment: 0,
            pace: Pace::On(0),
        })),
    }
}

/// `+STEP`; the time of day stands where nothing is said.
fn day_in(setup: Setup<'_>) -> Option<u64> {
    match setup.line("day") {
        Some(heading) => heading.words.strip_prefix('+')?.parse::<u64>().ok(),
        None => Some(0),
    }
}

fn taken_in(setup: Setup<'_>) -> Option<Option<u16>> {
    match setup.line("taken") {
        Some(heading) => Some(Some(heading.words.parse::<u16>().ok()?)),
        None => Some(None),
    }
}

/// `FROM TO`; always room where nothing is said.
fn full_in(setup: Setup<'_>) -> Option<Option<(u64, u64)>> {
    match setup.line("full") {
        Some(heading) => {
            let (from, to) = first(heading.words);
            Some(Some((from.parse::<u64>().ok()?, to.parse::<u64>().ok()?)))
        }
        None => Some(None),
    }
}

/// An IPv4 address, `A.B.C.D`.
pub(crate) fn host_of(text: &str) -> Option<[u8; 4]> {
    let mut host = [0u8; 4];
    let mut parts = text.split('.');
    for octet in &mut host {
        *octet = parts.next()?.parse::<u8>().ok()?;
    }
    Some(host)
}

fn source_in(setup: Setup<'_>) -> Option<Option<[u8; 4]>> {
    match setup.line("source") {
        Some(heading) => Some(Some(host_of(heading.words)?)),
        None => Some(None),
    }
}

/// `machine`, `machine taken PORT` or `pairs`; a machine in memory without them.
fn place_in(setup: Setup<'_>) -> Option<Place> {
    if setup.has("pairs") {
        return Some(Place::Pairs);
    }
    match setup.line("machine") {
        Some(Heading { words: "", .. }) => Some(Place::Machine(None)),
        Some(heading) => {
            let port = after(heading.words, "taken")?.parse::<u16>().ok()?;
            Some(Place::Machine(Some(port)))
        }
        None => Some(Place::Bench),
    }
}

/// The scene that lines set; None where one has no meaning.
pub(crate) fn scene_of(setup: Setup<'_>) -> Option<Scene<'_>> {
    let behind = match setup.line("links") {
        Some(heading) => behind_of(heading)?,
        None => Behind::Nothing,
    };
    Some(Scene {
        place: place_in(setup)?,
        behind,
        clock: clock_in(setup)?,
        day: day_in(setup)?,
        taken: taken_in(setup)?,
        full: full_in(setup)?,
        source: source_in(setup)?,
        is_terminal: setup.has("terminal"),
        is_screen: setup.has("screen"),
    })
}
