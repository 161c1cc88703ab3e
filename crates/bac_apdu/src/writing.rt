//! Writing APDUs.

ghost use Rattle.std.specs.Prelude.{◌≡◌, ◌+◌, ◌*◌, ◌/◌, ◌%◌, ◌≤◌, ◌<◌, ◌++◌, ◌∷◌, [], length, slice_index, OnOk, OnErr, vec_len, vec_capacity, Bool};
ghost use Rattle.bac_value.specs.Appending.{Appends, Lengthens, Keeps, NeedsRoom};
ghost use Rattle.std.specs.Option.{option_map};
ghost use Rattle.bac_value.specs.Octets.{Begins};
ghost use Rattle.bac_apdu.specs.Spelling.{SpellsApdu, apdu_spelling, enumerated_spelling, bit, segment_bits, segment_octets};
ghost use Rattle.bac_apdu.specs.Views.{segment_view, apdu_view};

use crate::apdu::Apdu;
use crate::bits::{MOR, NAK, SA, SEG, SRV};
use crate::lengths::segment_len;
use crate::limits::Segment;
use bac_value::{Class, NoMemory, kinds, write_unsigned};

/// The flags of the first octet for a segment.
fn bits_of(segment: Option<Segment>) -> u8
    ensures is { result ≡ segment_bits (option_map segment_view segment) }
    ensures few { result < 16 }
{
    match segment {
        None => 0,
        Some(segment) => SEG + weight(segment.more, MOR),
    }
}

fn weight(is_set: bool, weight: u8) -> u8
    ensures { result ≡ bit is_set weight }
{
    if is_set { weight } else { 0 }
}

/// Appends the octets, or changes nothing.
#[inline(always)]
fn put(octets: &[u8], out: &mut Vec<u8>) -> Result<(), NoMemory>
    ensures ok { Appends result out.old out.new octets.now }
    ensures err { Keeps result out.old out.new }
    ensures full { NeedsRoom result out.old octets.now }
    ensures grows { vec_capacity out.old ≤ vec_capacity out.new }
{
    Ok(out.extend_from_slice(octets)?)
}

/// Appends the octets for segmentation, or changes nothing.
#[inline(always)]
fn put_segment(segment: Option<Segment>, out: &mut Vec<u8>) -> Result<(), NoMemory>
    ensures ok { Appends result out.old out.new (segment_octets (option_map segment_view segment)) }
    ensures err { Keeps result out.old out.new }
    ensures full { NeedsRoom result out.old (segment_octets (option_map segment_view segment)) }
    ensures grows { vec_capacity out.old ≤ vec_capacity out.new }
{
    match segment {
        None => Ok(()),
        Some(segment) => put(&[segment.number, segment.window.size], out),
    }
}

/// Appends the first octets of a header, those for segmentation, the service choice, and the service data; or changes nothing.
#[inline(always)]
fn append(
    first: &[u8],
    segment: Option<Segment>,
    choice: u8,
    service: &[u8],
    out: &mut Vec<u8>,
) -> Result<(), NoMemory>
    requires { length first.now ≤ 3 }
    ensures ok { Appends result out.old out.new (first.now ++ segment_octets (option_map segment_view segment) ++ choice ∷ service.now) }
    ensures err { Keeps result out.old out.new }
    ensures full { NeedsRoom result out.old (first.now ++ segment_octets (option_map segment_view segment) ++ choice ∷ service.now) }
{
    out.reserve(first.len() + segment_len(segment) + 1 + service.len())?;
    out.extend_from_slice(first)?;
    put_segment(segment, out)?;
    out.push(choice)?;
    put(service, out)
}

/// Appends an application Enumerated, or changes nothing.
#[tactic(auto, using(crate::proofs::Enumerated::enumerated_is))]
fn put_enumerated(number: u32, out: &mut Vec<u8>) -> Result<(), NoMemory>
    ensures ok { Appends result out.old out.new (enumerated_spelling number) }
    ensures len { Lengthens result out.old out.new (enumerated_spelling number) }
    ensures err { Keeps result out.old out.new }
    ensures full { NeedsRoom result out.old (enumerated_spelling number) }
    ensures grows { vec_capacity out.old ≤ vec_capacity out.new }
{
    write_unsigned(
        Class::Application,
        kinds::ENUMERATED,
        u64::from(number),
        out,
    )
}

/// Appends an Error. After an `Err` the old octets are a prefix of the output.
fn put_error(
    first: u8,
    invoke_id: u8,
    choice: u8,
    class: u32,
    code: u32,
    out: &mut Vec<u8>,
) -> Result<(), NoMemory>
    ensures ok { Appends result out.old out.new (first ∷ invoke_id ∷ choice ∷ (enumerated_spelling class ++ enumerated_spelling code)) }
    ensures kept { Begins out.old.items out.new.items }
    ensures full { OnErr result (vec_capacity out.old < vec_len out.old + (3 + length (enumerated_spelling class) + length (enumerated_spelling code))) }
{
    out.extend_from_slice(&[first, invoke_id, choice])?;
    put_enumerated(class, out)?;
    put_enumerated(code, out)
}

/// Appends an Error, or changes nothing.
fn append_error(
    first: u8,
    invoke_id: u8,
    choice: u8,
    class: u32,
    code: u32,
    out: &mut Vec<u8>,
) -> Result<(), NoMemory>
    ensures ok { Appends result out.old out.new (first ∷ invoke_id ∷ choice ∷ (enumerated_spelling class ++ enumerated_spelling code)) }
    ensures err { Keeps result out.old out.new }
    ensures full { OnErr result (vec_capacity out.old < vec_len out.old + (3 + length (enumerated_spelling class) + length (enumerated_spelling code))) }
{
    let len = out.len();
    let written = put_error(first, invoke_id, choice, class, code, out);
    if written.is_err() {
        out.truncate(len);
    }
    written
}

/// The first octet: the type in bits 7 to 4, and the flags of this type of APDU below.
#[tactic(auto, unfolding(crate::specs::Spelling::apdu_spelling))]
fn first_octet(apdu: &Apdu) -> u8
    ensures { result ≡ slice_index (apdu_spelling (apdu_view apdu.now)) 0 }
{
    match *apdu {
        Apdu::ConfirmedRequest {
            limits,
            segment,
            ..
        } => bits_of(segment) + weight(limits.takes_segments, SA),
        Apdu::UnconfirmedRequest { .. } => 0x10,
        Apdu::SimpleAck { .. } => 0x20,
        Apdu::ComplexAck { segment, .. } => 0x30 + bits_of(segment),
        Apdu::SegmentAck { nak, server, .. } => 0x40 + weight(nak, NAK) + weight(server, SRV),
        Apdu::Error { .. } => 0x50,
        Apdu::Reject { .. } => 0x60,
        Apdu::Abort { server, .. } => 0x70 + weight(server, SRV),
    }
}

/// Appends the one spelling of an APDU (clause 20.1). Returns `NoMemory` and changes nothing if the vector cannot grow.
#[tactic(auto, unfolding(crate::specs::Spelling::apdu_spelling, crate::specs::Spelling::apdu_fits))]
pub fn write(apdu: &Apdu, out: &mut Vec<u8>) -> Result<(), NoMemory>
    ensures ok { Appends result out.old out.new (apdu_spelling (apdu_view apdu.now)) }
    ensures spelled { SpellsApdu (apdu_view apdu.now) (apdu_spelling (apdu_view apdu.now)) }
    ensures err { Keeps result out.old out.new }
    ensures full { NeedsRoom result out.old (apdu_spelling (apdu_view apdu.now)) }
{
    let head = first_octet(apdu);
    match *apdu {
        Apdu::ConfirmedRequest {
            limits,
            invoke_id,
            segment,
            choice,
            service,
        } => {
            let codes = 16 * limits.max_segments + limits.max_apdu;
            append(&[head, codes, invoke_id], segment, choice, service, out)
        }
        Apdu::UnconfirmedRequest { choice, service } => append(&[head], None, choice, service, out),
        Apdu::SimpleAck { invoke_id, choice } => put(&[head, invoke_id, choice], out),
        Apdu::ComplexAck {
            invoke_id,
            segment,
            choice,
            service,
        } => append(&[head, invoke_id], segment, choice, service, out),
        Apdu::SegmentAck {
            invoke_id,
            number,
            window,
            ..
        } => put(&[head, invoke_id, number, window.size], out),
        Apdu::Error {
            invoke_id,
            choice,
            class,
            code,
        } => append_error(head, invoke_id, choice, class, code, out),
        Apdu::Reject { invoke_id, reason } => put(&[head, invoke_id, reason], out),
        Apdu::Abort {
            invoke_id,
            reason,
            ..
        } => put(&[head, invoke_id, reason], out),
    }
}
