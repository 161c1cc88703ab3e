//! The lines at which the objects and the keys of a document stand.
use std::alloc::Global;
use std::collections::BTreeMap;
use toml_parser::text::{first, skip, skip_blank, skip_ws};
use toml_parser::{Key, dotted_key, quoted, starts_string};

/// The list of objects.
const OBJECTS: &str = "object";

/// The lines at which the keys of a document stand.
#[derive(Drop)]
pub(crate) struct Outline {
    /// For each object its keys, each with the number of its line, from 1 on; the empty key is the head of the object. The keys outside of objects come first.
    lines: Vec<BTreeMap<String, usize>>,
}

/// A document of which the outline is read.
#[derive(Drop)]
struct Outlining<'t> {
    alloc: Global,
    text: &'t str,
    outline: Outline,
    /// Whether the keys that come next are those of an object, or of no table at all.
    is_direct: bool,
    /// How many octets have been passed over, and the number of the line behind them.
    passed: usize,
    line: usize,
}

/// What follows an octet of ASCII; nothing where the next is none.
fn behind(rest: &str) -> &str {
    let octet = first(rest);
    if octet > 0 && octet < 128 {
        skip(rest, 1)
    } else {
        ""
    }
}

/// The key at the front of a text, and what follows it. None where there is none, or memory is refused.
fn key_in(alloc: Global, rest: &str) -> Option<(Key, &str)> {
    match dotted_key(alloc, rest) {
        Ok(read) => Some(read),
        Err(_) => None,
    }
}

/// How many brackets are open behind an octet.
fn depth_behind(octet: u8, depth: usize) -> usize {
    match octet {
        b'[' | b'{' => depth.saturating_add(1),
        b']' | b'}' => depth.saturating_sub(1),
        _ => depth,
    }
}

/// What follows the next piece of a value: a string, a comment or an octet. None where it cannot be read.
fn behind_piece(alloc: Global, rest: &str) -> Option<&str> {
    if starts_string(rest) {
        return match quoted(alloc, rest) {
            Ok(read) => Some(read.1),
            Err(_) => None,
        };
    }
    match first(rest) {
        b'#' => Some(skip_blank(rest, true)),
        _ => Some(behind(rest)),
    }
}

/// What follows a value or the rest of a head, from the end of its line on. None where it cannot be read.
pub(crate) fn behind_value(alloc: Global, text: &str) -> Option<&str> {
    let mut rest = text;
    let mut depth: usize = 0;
    for _place in 0..text.len() {
        let octet = first(rest);
        if octet == 0 || (depth == 0 && (octet == b'\n' || octet == b'#')) {
            return Some(rest);
        }
        depth = depth_behind(octet, depth);
        rest = behind_piece(alloc, rest)?;
    }
    Some(rest)
}

/// What begins with the first key or head: the text without blanks, comments and the byte order mark that some editors put at its beginning.
pub(crate) fn first_statement(text: &str) -> &str {
    skip_blank(text.strip_prefix('\u{feff}').unwrap_or(text), true)
}

/// How many octets are before the key or the head in which, or behind which, a place is, and how many before the line behind its value, if that ends.
pub(crate) fn statement_at(alloc: Global, text: &str, place: usize) -> (usize, Option<usize>) {
    let mut rest = first_statement(text);
    let mut begin = 0;
    let mut end = None;
    for _place in 0..text.len() {
        let before = text.len().saturating_sub(rest.len());
        if rest.is_empty() || before > place {
            return (begin, end);
        }
        begin = before;
        let Some(after) = behind_value(alloc, rest) else {
            return (begin, None);
        };
        end = Some(text.len().saturating_sub(after.len()));
        rest = skip_blank(after, true);
    }
    (begin, end)
}

/// Whether a text begins with the head of an object.
pub(crate) fn is_object_head(alloc: Global, rest: &str) -> bool {
    let Some(inner) = rest.strip_prefix("[[") else {
        return false;
    };
    match key_in(alloc, skip_ws(inner)) {
        Some((name, _)) => name.path.is_empty() && name.last.as_str() == OBJECTS,
        None => false,
    }
}

impl<'t> Outlining<'t> {
    /// The number of the latest object, from 1 on; 0 where none has begun.
    fn latest(&self) -> usize {
        self.outline.lines.len().saturating_sub(1)
    }

    /// The number of the line that follows so many octets, which are no fewer than the last time.
    fn line_at(&mut self, before: usize) -> usize {
        let octets = self.text.as_bytes();
        let more = lines_in(octets.get(self.passed..before).unwrap_or(&[]));
        self.line = self.line.saturating_add(more);
        self.passed = before;
        self.line
    }

    /// Notes a key, or the head of an object, which so many octets are before. None where memory is refused.
    fn note(&mut self, object: usize, key: &str, before: usize) -> Option<()> {
        let line = self.line_at(before);
        let keys = self.outline.lines.get_mut(object)?;
        if keys.contains_key(key) {
            return Some(());
        }
        let key = String::from_str(self.alloc, key).ok()?;
        keys.insert(key, line).ok()?;
        Some(())
    }

    /// Begins an object with its head, or the keys outside of objects.
    fn begin(&mut self) -> Option<()> {
        let keys = BTreeMap::new(self.alloc);
        self.outline.lines.push(keys).ok()
    }

    /// Reads the head of a table or of a list's table; what follows its line.
    fn read_head(&mut self, before: usize, rest: &'t str) -> Option<&'t str> {
        let inner = behind(rest);
        let inner = if first(inner) == b'[' {
            behind(inner)
        } else {
            inner
        };
        let (name, after) = key_in(self.alloc, skip_ws(inner))?;
        self.is_direct = name.path.is_empty() && name.last.as_str() == OBJECTS;
        if self.is_direct {
            self.begin()?;
            self.note(self.latest(), "", before)?;
        } else if let Some(table) = name.path.first() {
            let object = if table.as_str() == OBJECTS {
                self.latest()
            } else {
                0
            };
            let key = name.path.get(1).unwrap_or(&name.last);
            self.note(object, key.as_str(), before)?;
        } else {
            self.note(0, name.last.as_str(), before)?;
        }
        behind_value(self.alloc, after)
    }

    /// Reads a key and its value; what follows them.
    fn read_key(&mut self, before: usize, rest: &'t str) -> Option<&'t str> {
        let (name, after) = key_in(self.alloc, rest)?;
        if self.is_direct {
            let key = name.path.first().unwrap_or(&name.last);
            self.note(self.latest(), key.as_str(), before)?;
        }
        behind_value(self.alloc, after)
    }

    /// Reads all heads and keys. None where the text is no longer TOML, or memory is refused.
    fn read(&mut self) -> Option<()> {
        let text = self.text;
        let mut rest = first_statement(text);
        self.begin()?;
        for _place in 0..text.len() {
            if rest.is_empty() {
                return Some(());
            }
            let before = text.len().saturating_sub(rest.len());
            let after = if first(rest) == b'[' {
                self.read_head(before, rest)?
            } else {
                self.read_key(before, rest)?
            };
            rest = skip_blank(after, true);
        }
        Some(())
    }
}

impl Outline {
    /// The outline of a document, as far as it can be read and memory is there.
    pub(crate) fn of(alloc: Global, text: &str) -> Outline {
        let mut outlining = Outlining {
            alloc,
            text,
            outline: Outline {
                lines: Vec::new(alloc),
            },
            is_direct: true,
            passed: 0,
            line: 1,
        };
        // where it ends early, the lines of the later keys are not known
        let _ = outlining.read();
        outlining.outline
    }

    /// The number of the line at which a key of an object stands, from 1 on; that of the object's head where it has no such key. None where it is not known.
    pub(crate) fn line(&self, object: usize, key: &str) -> Option<usize> {
        let keys = self.lines.get(object)?;
        match keys.get(key) {
            Some(line) => Some(*line),
            None => keys.get("").copied(),
        }
    }
}

/// How many lines end in a text.
fn lines_in(text: &[u8]) -> usize {
    text.iter().filter(|octet| **octet == b'\n').count()
}

/// The number of the line, from 1 on, that follows so many octets.
pub(crate) fn line_behind(text: &[u8], octets: usize) -> usize {
    lines_in(&text[..octets.min(text.len())]).saturating_add(1)
}
