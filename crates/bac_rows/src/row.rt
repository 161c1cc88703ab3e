//! Words of a line by their places, and what a row prints.
//!
//! No call stops at a fault: a word without a meaning stands for 0 or for no octets, and what finds no memory is left out. Either shows in what is printed.
//! Where that does not suffice, calls whose names say so note a fault.
//! The type of what a row prints names no lifetime, and words are read by functions of their own: so the check of a caller stays small.
use std::alloc::Global;
use std::fmt::Display;
use std::io::Write;

/// The first word of a text, and what follows it.
pub fn first(text: &str) -> (&str, &str) {
    text.split_once(' ').unwrap_or((text, ""))
}

/// The text after so many words.
pub fn after(words: &str, count: usize) -> &str {
    let mut rest = words;
    for _ in 0..count {
        rest = first(rest).1;
    }
    rest
}

/// The word of that place, from 0 on; empty where there is none.
pub fn word(words: &str, place: usize) -> &str {
    first(after(words, place)).0
}

/// A decimal number; 0 of other texts.
pub fn decimal(digits: &str) -> u64 {
    digits.parse::<u64>().unwrap_or(0)
}

/// The decimal number of that place.
pub fn number(words: &str, place: usize) -> u64 {
    decimal(word(words, place))
}

/// The decimal number of that place, modulo 256.
pub fn number8(words: &str, place: usize) -> u8 {
    (number(words, place) % 256) as u8
}

/// The decimal number of that place, modulo 2^32.
pub fn number32(words: &str, place: usize) -> u32 {
    (number(words, place) % 4_294_967_296) as u32
}

/// The place of a word among words; the greatest number where it is none of them.
pub fn place_of(words: &str, wanted: &str) -> usize {
    let mut found = usize::MAX;
    for (place, word) in words.split(' ').enumerate() {
        if word == wanted {
            found = place;
        }
    }
    found
}

/// The digit of the lower four bits.
fn digit(octet: u8) -> u8 {
    let bits = octet % 16;
    if bits < 10 { bits + b'0' } else { bits + b'7' }
}

/// What a row prints.
#[derive(Drop)]
pub struct Row {
    /// What was printed.
    pub told: Vec<u8>,
    /// Whether something went wrong, or memory was refused.
    pub has_failed: bool,
    /// Where memory comes from.
    pub alloc: Global,
}

impl Row {
    /// A row that has printed nothing yet.
    pub fn new(alloc: Global) -> Row {
        Row {
            told: Vec::new(alloc),
            has_failed: false,
            alloc,
        }
    }

    /// Notes a fault.
    pub fn fail(&mut self) {
        self.has_failed = true;
    }

    /// Notes a fault where that is false.
    pub fn needs(&mut self, is: bool) {
        self.has_failed = self.has_failed || !is;
    }

    /// Prints `?` as a line where a fault was noted, and forgets it.
    pub fn mark_fault(&mut self) {
        if self.has_failed {
            self.has_failed = false;
            self.say("?\n");
        }
    }

    /// The octets of the hexadecimal word of that place.
    pub fn octets(&self, words: &str, place: usize) -> Vec<u8> {
        match hex::decode(self.alloc, word(words, place)) {
            Ok(octets) => octets,
            Err(_) => Vec::new(self.alloc),
        }
    }

    /// The decimal number of that place; a fault where it is none.
    pub fn number_or_fault(&mut self, words: &str, place: usize) -> u64 {
        let number = word(words, place).parse::<u64>().ok();
        self.needs(number.is_some());
        number.unwrap_or(0)
    }

    /// The decimal number of at most 255 of that place; a fault where it is none.
    pub fn number8_or_fault(&mut self, words: &str, place: usize) -> u8 {
        let number = word(words, place).parse::<u8>().ok();
        self.needs(number.is_some());
        number.unwrap_or(0)
    }

    /// The octets of the hexadecimal word of that place; a fault where it is none.
    pub fn octets_or_fault(&mut self, words: &str, place: usize) -> Vec<u8> {
        match hex::decode(self.alloc, word(words, place)) {
            Ok(octets) => octets,
            Err(_) => {
                self.has_failed = true;
                Vec::new(self.alloc)
            }
        }
    }

    /// Prints an octet as it is.
    pub fn put(&mut self, octet: u8) {
        if self.told.push(octet).is_err() {
            self.has_failed = true;
        }
    }

    /// Prints octets as they are.
    pub fn put_all(&mut self, octets: &[u8]) {
        if self.told.extend_from_slice(octets).is_err() {
            self.has_failed = true;
        }
    }

    /// Prints a text.
    pub fn say(&mut self, text: &str) {
        self.put_all(text.as_bytes());
    }

    /// Prints a text between two others, as a line.
    pub fn say_line(&mut self, before: &str, text: &str) {
        self.say(before);
        self.say(text);
        self.put(b'\n');
    }

    /// Prints a value as it displays itself.
    pub fn show<D: Display + Drop>(&mut self, shown: D) {
        if write!(&mut self.told, "{shown}").is_err() {
            self.has_failed = true;
        }
    }

    /// Prints a value as it displays itself, as a line.
    pub fn line<D: Display + Drop>(&mut self, shown: D) {
        self.show(shown);
        self.put(b'\n');
    }

    /// Prints `true` or `false`.
    pub fn say_truth(&mut self, is: bool) {
        self.say(if is { "true" } else { "false" });
    }

    /// Prints an octet in hexadecimal digits.
    pub fn say_octet(&mut self, octet: u8) {
        self.put(digit(octet / 16));
        self.put(digit(octet));
    }

    /// Prints octets in hexadecimal digits.
    pub fn say_octets(&mut self, octets: &[u8]) {
        for octet in octets {
            self.say_octet(*octet);
        }
    }

    /// Prints a text, with these numbers in the places of its `#`.
    pub fn tell_all(&mut self, form: &str, numbers: &[u64]) {
        let mut place = 0usize;
        for octet in form.as_bytes() {
            if *octet == b'#' {
                self.show(*numbers.get(place).unwrap_or(&0));
                place = place.wrapping_add(1);
            } else {
                self.put(*octet);
            }
        }
    }

    /// Prints a text, with that number in the place of its `#`.
    pub fn tell(&mut self, form: &str, number: u64) {
        self.tell_all(form, &[number]);
    }

    /// Prints a text, with two numbers in the places of its `#`.
    pub fn tell_two(&mut self, form: &str, one: u64, other: u64) {
        self.tell_all(form, &[one, other]);
    }

    /// Prints a text, and behind it whether that is so, as a line.
    pub fn tell_truth(&mut self, text: &str, is: bool) {
        self.say(text);
        self.say_truth(is);
        self.put(b'\n');
    }

    /// Prints what a command wrote on standard error after `! `, and its exit status where it is not 0.
    pub fn tell_end(&mut self, code: u8, err: &[u8]) {
        if !err.is_empty() {
            self.say("! ");
            self.put_all(err);
        }
        if code != 0 {
            self.tell("status #\n", u64::from(code));
        }
    }

    /// What was printed, as a text; empty where it is none.
    pub fn text(&self) -> &str {
        std::str::from_utf8(&self.told).unwrap_or("")
    }

    /// Prints what another row printed, and takes over its fault.
    pub fn take(&mut self, other: &Row) {
        self.put_all(&other.told);
        self.needs(!other.has_failed);
    }
}
