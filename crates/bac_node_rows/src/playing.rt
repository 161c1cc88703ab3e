//! Plays a script line by line.
//!
//! After a line that says what happens come the lines of its result, each indented by two spaces. Lines that begin with `--` are comments. `bac_rows` says how
//! lines are shortened. A script prints how many events it has; where a result differs, it also prints the event's line after `! `, and the result.
use bac_rows::row::Row;
use bac_rows::script::{add_lines, ranged, spelled};

/// What a script is played on, and its twin.
pub(crate) trait Stage {
    /// Prints the result of an event at both. A line that has no meaning is a fault.
    fn meets(&mut self, line: &str, row: &mut Row);

    /// Whether both are the same.
    fn is_sound(&self) -> bool;
}

/// A script that is played, with the texts of a scene.
#[derive(Drop)]
struct Player<'a> {
    scene: &'a str,
    /// The last event's line, its result, and the result that is expected.
    line: &'a str,
    told: Row,
    wanted: Row,
    events: u64,
}

impl<'a> Player<'a> {
    /// An event's line, with a number.
    fn meets_once<S: Stage>(&mut self, stage: &mut S, line: &str, number: u64) {
        self.events = self.events.saturating_add(1);
        match spelled(self.told.alloc, self.scene, line, number) {
            Ok(line) => stage.meets(&line, &mut self.told),
            Err(_) => self.told.fail(),
        }
    }

    /// An event's line, with each of its numbers.
    fn meets<S: Stage>(&mut self, stage: &mut S, line: &'a str) {
        self.line = line;
        match ranged(line) {
            Ok((numbers, line)) => {
                for place in 0..numbers.count {
                    self.meets_once(stage, line, numbers.at(place));
                }
            }
            Err(_) => self.told.fail(),
        }
        if !stage.is_sound() {
            self.told.say("not the same\n");
        }
    }

    /// Prints the result of the last event where it is not the expected one.
    fn compare(&mut self, out: &mut Row) {
        if self.told.told != self.wanted.told {
            out.say_line("! ", self.line);
            out.put_all(&self.told.told);
        }
        self.told.told.clear();
        self.wanted.told.clear();
    }

    /// Adds the lines of a result that is expected, each with each of its numbers.
    fn wants(&mut self, line: &str) {
        let wanted = &mut self.wanted.told;
        let is_added = add_lines(self.told.alloc, self.scene, line, wanted).is_ok();
        self.wanted.needs(is_added);
    }

    /// A line of a script.
    fn goes<S: Stage>(&mut self, stage: &mut S, line: &'a str, out: &mut Row) {
        match line.strip_prefix("  ") {
            Some(line) => self.wants(line),
            None if line.is_empty() || line.starts_with("--") => {}
            None => {
                self.compare(out);
                self.meets(stage, line);
            }
        }
    }

    fn goes_by<S: Stage>(&mut self, stage: &mut S, lines: &'a str, out: &mut Row) {
        for line in lines.lines() {
            self.goes(stage, line, out);
        }
        self.compare(out);
    }

    /// Prints how many events there were.
    fn ends(&self, out: &mut Row) {
        out.tell("# events\n", self.events);
        out.needs(!self.told.has_failed && !self.wanted.has_failed);
    }
}

/// What scripts of a scene begin with.
fn first_of(scene: &str) -> &str {
    match scene.split_once("\nfirst\n") {
        Some((_, first)) => first,
        None => "",
    }
}

/// Plays what scripts of a scene begin with, and a script; prints how many events there were.
pub(crate) fn play<S: Stage>(stage: &mut S, scene: &str, script: &str, out: &mut Row) {
    let mut player = Player {
        scene,
        line: "",
        told: Row::new(out.alloc),
        wanted: Row::new(out.alloc),
        events: 0,
    };
    player.goes_by(stage, first_of(scene), out);
    player.goes_by(stage, script, out);
    player.ends(out);
}
