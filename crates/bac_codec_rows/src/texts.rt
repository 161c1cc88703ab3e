//! Lines of what `bac decode` and `bac check` print on standard output, on standard error after `! `, and their exit status where it is not 0.
//!
//! `decode` and `told` take a datagram, `lines` one on each line, `check` and `notes` a capture, without notes and with them; `wrapped` and `told-wrapped` take
//! an NPDU and put it into its BVLL, and so does `longest`. `captured` reads a line of a capture.
use crate::words::{print_octets, print_runs};
use bac_rows::row::{Row, place_of};
use bac_text::{
    check_lines_over, check_over, decode_lines_over, decode_over, decode_text_over,
    read_capture_line,
};

fn decode(in_words: bool, text: &str, row: &mut Row) {
    let mut err = Vec::new(row.alloc);
    let status = if in_words {
        decode_text_over(row.alloc, true, text, &mut row.told, &mut err)
    } else {
        decode_over(row.alloc, text, &mut row.told, &mut err)
    };
    row.tell_end(status.code(), &err);
}

/// Prints the layers of an NPDU in its BVLL.
fn decode_npdu(in_words: bool, npdu: &str, row: &mut Row) {
    let len = npdu.len() / 2 % 65_536 + 4;
    let mut text = Row::new(row.alloc);
    text.show(format_args!("810A{len:04X}{npdu}"));
    decode(in_words, text.text(), row);
}

/// Prints the layers of a long NPDU in its BVLL, with what repeats in them written short.
fn longest(npdu: &str, row: &mut Row) {
    let mut long = Row::new(row.alloc);
    decode_npdu(false, npdu, &mut long);
    print_runs(&long.told, true, row);
}

fn lines(mut input: &[u8], row: &mut Row) {
    let mut err = Vec::new(row.alloc);
    let status = decode_lines_over(row.alloc, false, &mut input, &mut row.told, &mut err);
    row.tell_end(status.code(), &err);
}

fn check(notes: bool, mut input: &[u8], row: &mut Row) {
    let mut err = Vec::new(row.alloc);
    let status = if notes {
        check_lines_over(row.alloc, false, true, &mut input, &mut row.told, &mut err)
    } else {
        check_over(row.alloc, &mut input, &mut row.told, &mut err)
    };
    row.tell_end(status.code(), &err);
}

fn captured(line: &[u8], row: &mut Row) {
    match read_capture_line(row.alloc, line) {
        Ok(Some(captured)) => {
            row.tell("# ", captured.moment);
            print_octets(&captured.datagram, row);
        }
        Ok(None) => row.say("no line\n"),
        Err(_) => row.fail(),
    }
}

const VERBS: &str = "decode told wrapped told-wrapped longest lines check notes captured";

/// Shows what a line says.
pub(crate) fn show(verb: &str, text: &str, row: &mut Row) {
    match place_of(VERBS, verb) {
        0 => decode(false, text, row),
        1 => decode(true, text, row),
        2 => decode_npdu(false, text, row),
        3 => decode_npdu(true, text, row),
        4 => longest(text, row),
        5 => lines(text.as_bytes(), row),
        6 => check(false, text.as_bytes(), row),
        7 => check(true, text.as_bytes(), row),
        8 => captured(text.as_bytes(), row),
        _ => row.fail(),
    }
}
