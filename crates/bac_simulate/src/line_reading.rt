//! The lines of a script.
ghost use Rattle.std.specs.Prelude.{◌≡◌, ◌&&◌, codes, map};
ghost use Rattle.std.specs.Str.{bytes_eq};
ghost use Rattle.std.specs.Option.{option_map};
ghost use Rattle.bac_service_text.specs.Reading.{Reads};
ghost use Rattle.bac_value_text.specs.Numbers.{number_of, number_up_to};
ghost use Rattle.bac_value_text.specs.Reading.{property_of};
ghost use Rattle.bac_simulate.specs.Lines.{number_from_one, bounded, setting_with, usual_setting, setting_of};
ghost use Rattle.bac_simulate.specs.Lines.{setting_at, again_of, ask_of, ask_node_of, ask_stranger_of, clock_of, link_of, noise_of, numbered, pace_of, rate_of};
ghost use Rattle.bac_simulate.specs.Lines.{set_property_of, set_file_of, stranger_of, of_node, change_of, with_octets, statement_of, statement_at};
ghost use Rattle.bac_simulate.specs.Views.{setting_view, statement_view};

use crate::clock_words::rate_in;
use crate::line::{
    Ask, AskStranger, ClockPace, ClockStart, Noise, SetFile, SetProperty, Setting, Statement,
    Stranger,
};
use crate::line_words::words_in;
use crate::link_words::link_in;
use bac_npdu::LinkAddress;
use bac_service_text::{FormFault, object_or_fault, octets_or_fault, read_request_words};
use bac_value_text::{number_in, number_up_to, property_in};
use std::alloc::Global;

/// A number from 1 to that.
fn number_from_one(most: u8, word: &[u8]) -> Option<u8>
    ensures { result ≡ number_from_one most word.now }
{
    let number = number_up_to(u64::from(most), word)?;
    if number >= 1 {
        Some(number as u8)
    } else {
        None
    }
}

#[tactic(auto, unfolding(crate::specs::Lines::setting_with))]
fn setting_from(nodes: &[u8], window: &[u8], overtake: &[u8]) -> Option<Setting>
    ensures { option_map setting_view result ≡ setting_with nodes.now window.now overtake.now }
{
    let nodes = number_from_one(16, nodes)?;
    let window = number_from_one(64, window)?;
    let overtake = number_up_to(255, overtake)?;
    if overtake + 2 * u64::from(window) > 255 {
        return None;
    }
    Some(Setting {
        nodes,
        window,
        overtake: overtake as u8,
    })
}

#[tactic(auto, unfolding(crate::specs::Lines::usual_setting))]
/// The setting of a line that gives the number of nodes alone.
fn usual(nodes: &[u8]) -> Option<Setting>
    ensures { option_map setting_view result ≡ usual_setting nodes.now }
{
    let nodes = number_from_one(16, nodes)?;
    Some(Setting {
        nodes,
        window: 32,
        overtake: 128,
    })
}

/// Whether three words are those of a line that gives all numbers.
fn is_full(a: &[u8], b: &[u8], c: &[u8]) -> bool
    ensures { result ≡ bytes_eq a.now (codes "nodes") && (bytes_eq b.now (codes "window") && bytes_eq c.now (codes "overtake")) }
{
    a == b"nodes".as_slice() && b == b"window".as_slice() && c == b"overtake".as_slice()
}

fn setting_in(words: &[&[u8]]) -> Option<Setting>
    ensures { option_map setting_view result ≡ setting_of (map (λ w. w.now) words.now) }
{
    match words {
        [a, nodes] => {
            if *a == b"nodes".as_slice() {
                usual(*nodes)
            } else {
                None
            }
        }
        [a, nodes, b, window, c, overtake] => {
            if is_full(*a, *b, *c) {
                setting_from(*nodes, *window, *overtake)
            } else {
                None
            }
        }
        _ => None,
    }
}

/// The first line of a script, without its end: `nodes N`, or `nodes N window W overtake V`.
///
/// N is 1 to 16, W 1 to 64, and V + 2W at most 255; without them W is 32 and V is 128. `NoForm` for any other line.
pub fn read_setting(alloc: Global, line: &[u8]) -> Result<Setting, FormFault>
    ensures { Reads setting_view result (setting_at line.now) }
{
    let words = words_in(alloc, line)?;
    match setting_in(words.as_slice()) {
        Some(setting) => Ok(setting),
        None => Err(FormFault::NoForm),
    }
}

fn number_or_fault(word: &[u8]) -> Result<u64, FormFault>
    ensures { Reads (λ n. n) result (number_of word.now) }
{
    match number_in(word) {
        Some(number) => Ok(number),
        None => Err(FormFault::NoForm),
    }
}

#[tactic(auto, unfolding(crate::specs::Lines::ask_node_of))]
fn ask_node(
    alloc: Global,
    client: &[u8],
    server: &[u8],
    request: &[&[u8]],
) -> Result<Statement, FormFault>
    ensures { Reads statement_view result (ask_node_of client.now server.now (map (λ w. w.now) request.now)) }
{
    let client = number_or_fault(client)?;
    let server = number_or_fault(server)?;
    let request = read_request_words(alloc, request)?;
    Ok(Statement::Ask(Ask {
        client,
        server,
        request,
    }))
}

#[tactic(auto, unfolding(crate::specs::Lines::ask_stranger_of))]
fn ask_stranger(
    alloc: Global,
    client: &[u8],
    link: LinkAddress,
    request: &[&[u8]],
) -> Result<Statement, FormFault>
    ensures { Reads statement_view result (ask_stranger_of client.now link (map (λ w. w.now) request.now)) }
{
    let client = number_or_fault(client)?;
    let request = read_request_words(alloc, request)?;
    Ok(Statement::AskStranger(AskStranger {
        client,
        link,
        request,
    }))
}

/// Who is asked is a stranger where the word is a link.
fn ask(
    alloc: Global,
    client: &[u8],
    server: &[u8],
    request: &[&[u8]],
) -> Result<Statement, FormFault>
    ensures { Reads statement_view result (ask_of client.now server.now (map (λ w. w.now) request.now)) }
{
    match link_in(server) {
        Some(link) => ask_stranger(alloc, client, link, request),
        None => ask_node(alloc, client, server, request),
    }
}

fn link_or_fault(word: &[u8]) -> Result<LinkAddress, FormFault>
    ensures { Reads (λ l. l) result (link_of word.now) }
{
    match link_in(word) {
        Some(link) => Ok(link),
        None => Err(FormFault::NoForm),
    }
}

#[tactic(auto, unfolding(crate::specs::Lines::stranger_of))]
fn stranger(alloc: Global, node: &[u8], link: &[u8], octets: &[u8]) -> Result<Statement, FormFault>
    ensures { Reads statement_view result (stranger_of node.now link.now octets.now) }
{
    let node = number_or_fault(node)?;
    let link = link_or_fault(link)?;
    let octets = octets_or_fault(alloc, octets)?;
    Ok(Statement::Stranger(Stranger { node, link, octets }))
}

fn start_or_fault(word: &[u8]) -> Result<u32, FormFault>
    ensures { Reads (λ n. n) result (number_up_to 4294967295 word.now) }
{
    match number_up_to(4_294_967_295, word) {
        Some(start) => Ok(start as u32),
        None => Err(FormFault::NoForm),
    }
}

#[tactic(auto, unfolding(crate::specs::Lines::clock_of))]
fn clock(node: &[u8], start: &[u8]) -> Result<Statement, FormFault>
    ensures { Reads statement_view result (clock_of node.now start.now) }
{
    let node = number_or_fault(node)?;
    let start = start_or_fault(start)?;
    Ok(Statement::Clock(ClockStart { node, start }))
}

fn rate_or_fault(word: &[u8]) -> Result<u32, FormFault>
    ensures { Reads (λ n. n) result (rate_of word.now) }
{
    match rate_in(word) {
        Some(rate) => Ok(rate),
        None => Err(FormFault::NoForm),
    }
}

#[tactic(auto, unfolding(crate::specs::Lines::pace_of))]
fn pace(node: &[u8], parts: &[u8]) -> Result<Statement, FormFault>
    ensures { Reads statement_view result (pace_of node.now parts.now) }
{
    let node = number_or_fault(node)?;
    let rate = rate_or_fault(parts)?;
    Ok(Statement::Pace(ClockPace { node, rate }))
}

#[tactic(auto, unfolding(crate::specs::Lines::noise_of))]
fn noise(alloc: Global, node: &[u8], octets: &[u8]) -> Result<Statement, FormFault>
    ensures { Reads statement_view result (noise_of node.now octets.now) }
{
    let node = number_or_fault(node)?;
    let octets = octets_or_fault(alloc, octets)?;
    Ok(Statement::Noise(Noise { node, octets }))
}

#[tactic(auto, unfolding(crate::specs::Lines::numbered))]
fn with_number(word: &[u8], number: &[u8]) -> Result<Statement, FormFault>
    ensures { Reads statement_view result (numbered word.now number.now) }
{
    let number = number_or_fault(number)?;
    if word == b"deliver".as_slice() {
        Ok(Statement::Deliver(number))
    } else if word == b"tick".as_slice() {
        Ok(Statement::Tick(number))
    } else if word == b"advance".as_slice() {
        Ok(Statement::Advance(number))
    } else if word == b"lose".as_slice() {
        Ok(Statement::Lose(number))
    } else if word == b"restart".as_slice() {
        Ok(Statement::Restart(number))
    } else if word == b"begin".as_slice() {
        Ok(Statement::Begin(number))
    } else {
        Err(FormFault::NoForm)
    }
}

fn property_or_fault(word: &[u8]) -> Result<u32, FormFault>
    ensures { Reads (λ n. n) result (property_of word.now) }
{
    match property_in(word) {
        Some(property) => Ok(property),
        None => Err(FormFault::NoForm),
    }
}

#[tactic(auto, unfolding(crate::specs::Lines::set_property_of))]
fn set_property(
    alloc: Global,
    node: &[u8],
    object: &[u8],
    property: &[u8],
    octets: &[u8],
) -> Result<Statement, FormFault>
    ensures { Reads statement_view result (set_property_of node.now object.now property.now octets.now) }
{
    let node = number_or_fault(node)?;
    let object = object_or_fault(object)?;
    let property = property_or_fault(property)?;
    let octets = octets_or_fault(alloc, octets)?;
    Ok(Statement::SetProperty(SetProperty {
        node,
        object,
        property,
        octets,
    }))
}

#[tactic(auto, unfolding(crate::specs::Lines::set_file_of))]
fn set_file(
    alloc: Global,
    node: &[u8],
    object: &[u8],
    octets: &[u8],
) -> Result<Statement, FormFault>
    ensures { Reads statement_view result (set_file_of node.now object.now octets.now) }
{
    let node = number_or_fault(node)?;
    let object = object_or_fault(object)?;
    let octets = octets_or_fault(alloc, octets)?;
    Ok(Statement::SetFile(SetFile {
        node,
        object,
        octets,
    }))
}

/// Octets that come to a node, or go into a file of its own store.
fn with_octets(
    alloc: Global,
    word: &[u8],
    node: &[u8],
    place: &[u8],
    octets: &[u8],
) -> Result<Statement, FormFault>
    ensures { Reads statement_view result (with_octets word.now node.now place.now octets.now) }
{
    if word == b"file".as_slice() {
        set_file(alloc, node, place, octets)
    } else if word == b"stranger".as_slice() {
        stranger(alloc, node, place, octets)
    } else {
        Err(FormFault::NoForm)
    }
}

/// A change of a node's own store, or octets of a stranger, by the words after the object or the link.
fn change(
    alloc: Global,
    word: &[u8],
    node: &[u8],
    object: &[u8],
    words: &[&[u8]],
) -> Result<Statement, FormFault>
    ensures { Reads statement_view result (change_of word.now node.now object.now (map (λ w. w.now) words.now)) }
{
    match words {
        [octets] => with_octets(alloc, word, node, object, *octets),
        [property, octets] if word == b"set".as_slice() => {
            set_property(alloc, node, object, *property, *octets)
        }
        _ => Err(FormFault::NoForm),
    }
}

/// Another program begins at a node.
#[tactic(auto, unfolding(crate::specs::Lines::again_of))]
fn again(word: &[u8], node: &[u8]) -> Result<Statement, FormFault>
    ensures { Reads statement_view result (again_of word.now node.now) }
{
    let node = number_or_fault(node)?;
    if word == b"again".as_slice() {
        Ok(Statement::BeginAgain(node))
    } else {
        Err(FormFault::NoForm)
    }
}

/// A node, and one word more; or two words and a node.
fn of_node(alloc: Global, word: &[u8], node: &[u8], more: &[u8]) -> Result<Statement, FormFault>
    ensures { Reads statement_view result (of_node word.now node.now more.now) }
{
    if word == b"noise".as_slice() {
        noise(alloc, node, more)
    } else if word == b"clock".as_slice() {
        clock(node, more)
    } else if word == b"pace".as_slice() {
        pace(node, more)
    } else if word == b"begin".as_slice() {
        again(node, more)
    } else {
        Err(FormFault::NoForm)
    }
}

fn statement_in(alloc: Global, words: &[&[u8]]) -> Result<Statement, FormFault>
    ensures { Reads statement_view result (statement_of (map (λ w. w.now) words.now)) }
{
    match words {
        [word, number] => with_number(*word, *number),
        [word, a, b] => of_node(alloc, *word, *a, *b),
        [word, a, b, request @ ..] if *word == b"ask".as_slice() && !request.is_empty() => {
            ask(alloc, *a, *b, request)
        }
        [word, a, b, more @ ..] => change(alloc, *word, *a, *b, more),
        _ => Err(FormFault::NoForm),
    }
}

/// A line after the first one, without its end. Its words are separated by single spaces:
/// - `ask CLIENT SERVER` or `ask CLIENT LINK`, and the words of a request;
/// - `deliver COPY` or `lose COPY`;
/// - `noise NODE HEX` or `stranger NODE LINK HEX`;
/// - `tick NODE`, `advance MILLISECONDS`, `clock NODE MILLISECONDS` or `pace NODE PARTS`;
/// - `set NODE T:I P HEX` or `file NODE T:I HEX`;
/// - `restart NODE`, `begin NODE` or `begin again NODE`.
///
/// A LINK is as `192.168.1.20:47808`, and PARTS are -1,000 to 1,000 in a million. `NoForm` for any other line.
pub fn read_statement(alloc: Global, line: &[u8]) -> Result<Statement, FormFault>
    ensures { Reads statement_view result (statement_at line.now) }
{
    let words = words_in(alloc, line)?;
    statement_in(alloc, words.as_slice())
}
