//! Lines of tags, elements, data and values.
//!
//! `tag`, `element` and `data` read octets and print how many were read, or the number and the place of a fault. `piece SIZE` reads an element in pieces of
//! that size. Values and data that were read are written again. `member` reads an element under a context tag, prints the tag's number and the contents, and
//! writes it again. `print` prints the value of octets as text, and `value` reads the text of one.
use crate::pieces::pieces_of;
use crate::words::{print_again, print_octets};
use bac_rows::row::{Row, number, place_of};
use bac_value::{
    Class, Data, Element, Fault, Form, Octets, Parts, Tag, Value, copy_out, read_data,
    read_element, read_tag, take_element, value_of, write_data, write_tag, write_value,
};
use bac_value_text::{Separator, read_value, value_text};
use std::alloc::Global;

/// Prints how many octets were read.
fn print_length(len: usize, row: &mut Row) {
    row.tell("length #\n", len as u64);
}

fn print_fault(fault: Fault, row: &mut Row) {
    row.tell_two(
        "fault # at #\n",
        u64::from(fault.kind.number()),
        fault.at as u64,
    );
}

fn tag(octets: &[u8], row: &mut Row) {
    match read_tag(octets) {
        Ok((_, len)) => print_length(len, row),
        Err(fault) => print_fault(fault, row),
    }
}

fn spelling_of(alloc: Global, value: &Value) -> Vec<u8> {
    let mut out = Vec::new(alloc);
    let _ = write_value(value, &mut out);
    out
}

/// Writes the value of an element again, where it is one.
fn write_value_of<O: Octets>(element: Element<O>, octets: &[u8], row: &mut Row) {
    match value_of(row.alloc, element) {
        Ok(Some(value)) => print_again(&spelling_of(row.alloc, &value), octets, row),
        Ok(None) => row.say("no value\n"),
        Err(_) => row.fail(),
    }
}

/// So many of the first octets.
fn front(octets: &[u8], len: usize) -> &[u8] {
    octets.get(..len).unwrap_or(octets)
}

/// Writes contents under a context tag.
fn write_member(tag: &Tag, contents: &[u8], octets: &[u8], row: &mut Row) {
    let mut out = Vec::new(row.alloc);
    let _ = write_tag(tag, &mut out);
    let _ = out.extend_from_slice(contents);
    print_again(&out, octets, row);
}

/// Writes an element under a context tag again.
fn member_again(element: Element<&[u8]>, octets: &[u8], row: &mut Row) {
    let number = element.tag.number;
    row.tell("context # contents ", u64::from(number));
    print_octets(element.contents, row);
    let len = u32::try_from(element.contents.len()).unwrap_or(0);
    match Tag::new(number, Class::Context, Form::Length(len)) {
        Some(tag) => write_member(&tag, element.contents, octets, row),
        None => row.fail(),
    }
}

/// Reads an element, under a context tag or not, and writes it again.
fn element(is_member: bool, octets: &[u8], row: &mut Row) {
    match read_element(octets) {
        Ok((element, len)) => {
            print_length(len, row);
            if is_member {
                member_again(element, front(octets, len), row);
            } else {
                write_value_of(element, front(octets, len), row);
            }
        }
        Err(fault) => print_fault(fault, row),
    }
}

fn write_data_again(data: Data<'_>, octets: &[u8], row: &mut Row) {
    let mut written = Vec::new(row.alloc);
    let _ = write_data(data, &mut written);
    print_again(&written, octets, row);
}

fn data(octets: &[u8], row: &mut Row) {
    match read_data(octets) {
        Ok((data, len)) => {
            print_length(len, row);
            write_data_again(data, front(octets, len), row);
        }
        Err(fault) => print_fault(fault, row),
    }
}

fn copy_again(parts: &Parts<'_>, octets: &[u8], row: &mut Row) {
    let mut copied = Vec::new(row.alloc);
    let _ = copy_out(parts, 0, parts.len(), &mut copied);
    print_again(&copied, octets, row);
}

fn parts_again(parts: Parts<'_>, octets: &[u8], row: &mut Row) {
    copy_again(&parts, octets, row);
    match take_element(parts) {
        Ok((element, _)) => write_value_of(element, octets, row),
        Err(_) => row.fail(),
    }
}

/// Copies pieces, and writes the value again that they begin with.
fn element_in(pieces: &[Vec<u8>], octets: &[u8], row: &mut Row) {
    match Parts::try_new(pieces) {
        Some(parts) => parts_again(parts, octets, row),
        None => row.fail(),
    }
}

fn pieces_again(octets: &[u8], size: usize, empty: bool, row: &mut Row) {
    let pieces = pieces_of(row.alloc, octets, size.max(1), empty);
    element_in(&pieces, octets, row);
}

fn piece(words: &str, row: &mut Row) {
    let size = number(words, 0) as usize;
    let octets = row.octets(words, 1);
    pieces_again(&octets, size, false, row);
    pieces_again(&octets, size, true, row);
}

/// Reads a text and prints the octets of its value.
fn read_text(separator: Separator, text: &[u8], row: &mut Row) {
    match read_value(row.alloc, separator, text) {
        Ok(value) => print_octets(&spelling_of(row.alloc, &value), row),
        Err(_) => row.say("no value\n"),
    }
}

/// Prints a value, and the octets of the value that is read from that text.
fn print_and_read(separator: Separator, value: &Value, row: &mut Row) {
    match value_text(row.alloc, separator, value) {
        Ok(text) => {
            row.put_all(&text);
            row.put(b'\n');
            read_text(separator, &text, row);
        }
        Err(_) => row.fail(),
    }
}

fn print_value(element: Element<&[u8]>, row: &mut Row) {
    match value_of(row.alloc, element) {
        Ok(Some(value)) => {
            print_and_read(Separator::Space, &value, row);
            print_and_read(Separator::Colon, &value, row);
        }
        _ => row.fail(),
    }
}

fn print(octets: &[u8], row: &mut Row) {
    match read_element(octets) {
        Ok((element, _)) => print_value(element, row),
        Err(_) => row.fail(),
    }
}

const VERBS: &str = "tag element member data print";

/// Shows octets, which are lent, so that nothing is to be dropped at the end of each arm.
fn show_octets(verb: &str, octets: &[u8], row: &mut Row) {
    match place_of(VERBS, verb) {
        0 => tag(octets, row),
        1 => element(false, octets, row),
        2 => element(true, octets, row),
        3 => data(octets, row),
        4 => print(octets, row),
        _ => row.fail(),
    }
}

/// Shows what a line says.
pub(crate) fn show(verb: &str, words: &str, row: &mut Row) {
    match place_of("piece value", verb) {
        0 => piece(words, row),
        1 => read_text(Separator::Colon, words.as_bytes(), row),
        _ => {
            let octets = row.octets(words, 0);
            show_octets(verb, &octets, row);
        }
    }
}
