//! Lines of words: `words bac WORD..` prints the request of some words or which one is bad, `step` the meaning of a script's line, and `setting` that of a
//! script's first line.
use crate::words::print_octets;
use bac_rows::row::{Row, place_of};
use bac_service::{OwnedRequest, write_request};
use bac_service_text::{BadWord, FormFault, bad_word, read_request_words};
use bac_simulate::{AskStranger, Setting, Statement, Stranger, read_setting, read_statement};
use std::alloc::Global;

/// The words after the program's name.
fn words_of(alloc: Global, text: &str) -> Vec<&[u8]> {
    let mut words = Vec::new(alloc);
    for word in text.split(' ').skip(1) {
        let _ = words.push(word.as_bytes());
    }
    words
}

fn print_request(request: &OwnedRequest, row: &mut Row) {
    let mut octets = Vec::new(row.alloc);
    let _ = write_request(request.as_request(), &mut octets);
    print_octets(&octets, row);
}

fn print_word(word: BadWord<'_>, row: &mut Row) {
    match word.text(row.alloc) {
        Ok(text) => {
            row.put_all(&text);
            row.put(b'\n');
        }
        Err(_) => row.fail(),
    }
}

fn print_bad(words: &[&[u8]], row: &mut Row) {
    match bad_word(row.alloc, words) {
        Ok(Some(word)) => print_word(word, row),
        _ => row.fail(),
    }
}

fn request(words: &[&[u8]], row: &mut Row) {
    match read_request_words(row.alloc, words) {
        Ok(request) => print_request(&request, row),
        Err(FormFault::NoForm) => print_bad(words, row),
        Err(FormFault::NoMemory) => row.fail(),
    }
}

fn print_ask_stranger(ask: &AskStranger, row: &mut Row) {
    row.tell("ask # at ", ask.client);
    print_octets(&ask.link, row);
    print_request(&ask.request, row);
}

fn print_stranger(stranger: &Stranger, row: &mut Row) {
    row.tell("stranger # at ", stranger.node);
    print_octets(&stranger.link, row);
    print_octets(&stranger.octets, row);
}

fn print_step(step: &Statement, row: &mut Row) {
    match step {
        Statement::Ask(ask) => {
            row.tell_two("ask # # ", ask.client, ask.server);
            print_request(&ask.request, row);
        }
        Statement::Noise(noise) => {
            row.tell("noise # ", noise.node);
            print_octets(&noise.octets, row);
        }
        Statement::Deliver(copy) => row.tell("deliver #\n", *copy),
        Statement::Lose(copy) => row.tell("lose #\n", *copy),
        Statement::Tick(node) => row.tell("tick #\n", *node),
        Statement::Advance(time) => row.tell("advance #\n", *time),
        Statement::AskStranger(ask) => print_ask_stranger(ask, row),
        Statement::Stranger(stranger) => print_stranger(stranger, row),
        Statement::Clock(it) => row.tell_two("clock # #\n", it.node, u64::from(it.start)),
        Statement::Pace(it) => row.tell_two("pace # #\n", it.node, u64::from(it.rate)),
        _ => row.fail(),
    }
}

/// Prints that words have no meaning.
fn print_fault(fault: FormFault, row: &mut Row) {
    match fault {
        FormFault::NoForm => row.say("no form\n"),
        FormFault::NoMemory => row.fail(),
    }
}

fn step(line: &[u8], row: &mut Row) {
    match read_statement(row.alloc, line) {
        Ok(step) => print_step(&step, row),
        Err(fault) => print_fault(fault, row),
    }
}

fn print_setting(it: &Setting, row: &mut Row) {
    row.tell_two(
        "nodes # window # ",
        u64::from(it.nodes),
        u64::from(it.window),
    );
    row.tell("overtake #\n", u64::from(it.overtake));
}

fn setting(line: &[u8], row: &mut Row) {
    match read_setting(row.alloc, line) {
        Ok(setting) => print_setting(&setting, row),
        Err(fault) => print_fault(fault, row),
    }
}

/// Shows what a line says.
pub(crate) fn show(verb: &str, words: &str, row: &mut Row) {
    match place_of("words step setting", verb) {
        0 => {
            let words = words_of(row.alloc, words);
            request(&words, row);
        }
        1 => step(words.as_bytes(), row),
        2 => setting(words.as_bytes(), row),
        _ => row.fail(),
    }
}
