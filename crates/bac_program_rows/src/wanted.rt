//! What a command line has to print.
use crate::bench::Bound;
use crate::command::Ended;
use crate::files::{Files, put_block};
use crate::lines::{first, headed, named};
use crate::scene::host_of;
use crate::spelling::{put_line, text_of};
use std::alloc::Global;
use std::io::Write;

/// What a command line printed, and its end.
#[derive(Drop)]
pub(crate) struct Printed {
    pub out: Vec<u8>,
    pub err: Vec<u8>,
    pub ended: Ended,
}

/// What a line below a command line says.
#[derive(Clone, Copy)]
enum Said<'a> {
    /// A line of standard output, or of standard error.
    Out(&'a str),
    Err(&'a str),
    /// A part of standard output, or of standard error, or the front of that.
    OutPart(&'a str),
    ErrPart(&'a str),
    ErrFront(&'a str),
    Status(&'a str),
    /// A file of this name has the lines below it.
    Wrote(&'a str),
    Bound(&'a str),
    /// Standard error ends in a moment.
    Moment(&'a str),
    Wrapped,
    /// A line of a file, or a note.
    Nothing,
}

/// A line that begins with one of these words.
fn meaning_by_word(line: &str) -> Option<Said<'_>> {
    let (word, rest) = first(line);
    match word {
        "1>" => Some(Said::Out(rest)),
        "2>" => Some(Said::Err(rest)),
        "~" => Some(Said::OutPart(rest)),
        "2~" => Some(Said::ErrPart(rest)),
        "2^" => Some(Said::ErrFront(rest)),
        "status" => Some(Said::Status(rest)),
        "wrote" => Some(Said::Wrote(rest)),
        "bound" => Some(Said::Bound(rest)),
        "moment" => Some(Said::Moment(rest)),
        "wrapped" => Some(Said::Wrapped),
        "|" | "#" | "writes" => Some(Said::Nothing),
        _ => None,
    }
}

fn meaning(line: &str) -> Said<'_> {
    meaning_by_word(line).unwrap_or(Said::Out(line))
}

/// What has to be printed on both outputs.
#[derive(Drop)]
struct Wanted {
    out: Vec<u8>,
    err: Vec<u8>,
    /// Whether an output is compared as a whole.
    is_out_whole: bool,
    is_err_whole: bool,
}

impl Wanted {
    fn put(&mut self, alloc: Global, line: &str) -> Option<()> {
        match meaning(line) {
            Said::Out(line) => put_line(alloc, line, &mut self.out)?,
            Said::Err(line) => put_line(alloc, line, &mut self.err)?,
            Said::OutPart(_) | Said::Wrapped => self.is_out_whole = false,
            Said::ErrPart(_) | Said::ErrFront(_) | Said::Moment(_) => self.is_err_whole = false,
            _ => {}
        }
        Some(())
    }

    fn has(&self, printed: &Printed) -> bool {
        (!self.is_out_whole || self.out == printed.out)
            && (!self.is_err_whole || self.err == printed.err)
    }
}

fn wanted_of(alloc: Global, lines: &str) -> Option<Wanted> {
    let mut wanted = Wanted {
        out: Vec::new(alloc),
        err: Vec::new(alloc),
        is_out_whole: true,
        is_err_whole: true,
    };
    for line in lines.lines() {
        wanted.put(alloc, line)?;
    }
    Some(wanted)
}

/// The exit status that is wanted.
pub(crate) fn wanted_status(lines: &str) -> Option<u8> {
    match headed(lines, "status") {
        Some(heading) => heading.words.parse::<u8>().ok(),
        None => Some(0),
    }
}

fn has_part(alloc: Global, octets: &[u8], part: &str) -> Option<bool> {
    let text = std::str::from_utf8(octets).ok()?;
    let part = text_of(alloc, part)?;
    Some(text.contains(part.as_str()))
}

fn begins(alloc: Global, octets: &[u8], front: &str) -> Option<bool> {
    let front = text_of(alloc, front)?;
    Some(octets.starts_with(front.as_bytes()))
}

/// Whether no line is longer than 80 octets, and two at least begin with `Example: `.
fn is_wrapped(octets: &[u8]) -> Option<bool> {
    let text = std::str::from_utf8(octets).ok()?;
    let examples = text
        .lines()
        .filter(|line| line.starts_with("Example: "))
        .count();
    Some(examples >= 2 && text.lines().all(|line| line.len() <= 80))
}

/// Where a link is bound, `A.B.C.D:P` or `nowhere`.
fn bound_of(text: &str) -> Option<Option<Bound>> {
    if text == "nowhere" {
        return Some(None);
    }
    let (host, port) = text.split_once(':')?;
    let host = host_of(host)?;
    let port = port.parse::<u16>().ok()?;
    Some(Some((host, port)))
}

/// The number behind a text, at the end of a line.
fn number_behind(octets: &[u8], front: &str) -> Option<u64> {
    let text = std::str::from_utf8(octets).ok()?;
    let digits = text.strip_prefix(front)?.strip_suffix('\n')?;
    digits.parse::<u64>().ok()
}

/// Whether standard error is a text and a moment, `LEAST MORE TEXT`: LEAST at least, and at most MORE after the end.
fn ends_in_moment(alloc: Global, words: &str, printed: &Printed) -> Option<bool> {
    let (least, words) = first(words);
    let (more, front) = first(words);
    let least = least.parse::<u64>().ok()?;
    let most = more.parse::<u64>().ok()?.saturating_add(printed.ended.took);
    let front = text_of(alloc, front)?;
    match number_behind(&printed.err, front.as_str()) {
        Some(moment) => Some(least <= moment && moment <= most),
        None => Some(false),
    }
}

/// Whether a file has the octets of a block.
fn is_there(alloc: Global, files: &Files<'_>, name: &str, lines: &str) -> Option<bool> {
    let heading = named(lines, "wrote", name, 0)?;
    let mut wanted = Vec::new(alloc);
    put_block(alloc, heading.below, &mut wanted)?;
    match files.octets_at(name) {
        Some(octets) => Some(octets == wanted),
        None => Some(false),
    }
}

/// What a row is compared with.
#[derive(Clone, Copy)]
pub(crate) struct Row<'a> {
    pub alloc: Global,
    pub files: &'a Files<'a>,
    pub lines: &'a str,
}

impl Row<'_> {
    /// Whether a line holds by itself: those of the outputs do, and are compared as a whole.
    fn holds(&self, line: &str, printed: &Printed) -> Option<bool> {
        match meaning(line) {
            Said::OutPart(part) => has_part(self.alloc, &printed.out, part),
            Said::ErrPart(part) => has_part(self.alloc, &printed.err, part),
            Said::ErrFront(front) => begins(self.alloc, &printed.err, front),
            Said::Wrapped => is_wrapped(&printed.out),
            Said::Wrote(name) => is_there(self.alloc, self.files, name, self.lines),
            Said::Bound(place) => Some(bound_of(place)? == printed.ended.bound?),
            Said::Moment(words) => ends_in_moment(self.alloc, words, printed),
            _ => Some(true),
        }
    }

    /// Whether both outputs and the status are as wanted.
    fn is_printed(&self, printed: &Printed) -> Option<bool> {
        let wanted = wanted_of(self.alloc, self.lines)?;
        Some(wanted.has(printed) && wanted_status(self.lines)? == printed.ended.code)
    }

    /// Tells each line that does not hold.
    fn tell_lines(&self, printed: &Printed, out: &mut Vec<u8>) -> Option<()> {
        for line in self.lines.lines() {
            if !self.holds(line, printed)? {
                writeln!(out, "! {line}").ok()?;
            }
        }
        Some(())
    }

    /// Whether all holds; what does not is told.
    pub(crate) fn compare(
        &self,
        command: &str,
        printed: &Printed,
        out: &mut Vec<u8>,
    ) -> Option<bool> {
        let mut told = Vec::new(self.alloc);
        self.tell_lines(printed, &mut told)?;
        if told.is_empty() && self.is_printed(printed)? {
            return Some(true);
        }
        writeln!(out, "! $ {command}").ok()?;
        tell(printed, out)?;
        out.extend_from_slice(&told).ok()?;
        Some(false)
    }
}

/// Appends lines, each behind a front.
fn put_behind(front: &str, octets: &[u8], out: &mut Vec<u8>) -> Option<()> {
    for line in octets.split_inclusive(|octet| *octet == b'\n') {
        out.extend_from_slice(front.as_bytes()).ok()?;
        out.extend_from_slice(line).ok()?;
    }
    if octets.is_empty() || octets.ends_with(b"\n") {
        Some(())
    } else {
        out.extend_from_slice(b"\\\n").ok()
    }
}

/// Tells what a command line printed, and its status where it is not 0.
fn tell(printed: &Printed, out: &mut Vec<u8>) -> Option<()> {
    put_behind("", &printed.out, out)?;
    put_behind("2> ", &printed.err, out)?;
    match printed.ended.code {
        0 => Some(()),
        code => writeln!(out, "status {code}").ok(),
    }
}
