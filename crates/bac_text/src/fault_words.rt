//! What is wrong with a datagram, in words.
ghost use Rattle.std.specs.Prelude.{◌≡◌, ◌++◌, codes, IfOk, OnOk, string_bytes};
ghost use Rattle.std.specs.Io.KnownBytes.{Appends};
ghost use Rattle.bac_value_text.specs.Reasons.{reject_text};
ghost use Rattle.bac_text.specs.Decoded.{fault_line};
ghost use Rattle.std.specs.Prelude.{true};
ghost use Rattle.bac_text.specs.Faults.{apdu_reason, bvll_words, fault_because, fault_words, frame_reason, function_digits, function_in, function_reason, kind_reason};
ghost use Rattle.bac_text.specs.Texts.{line_fault_text};

use crate::fault::{LayerFault, LineFault};
use bac_apdu::ApduFault;
use bac_npdu::FrameFault;
use bac_value::FaultKind;
use bac_value_text::reject_text;
use std::alloc::{AllocError, Global};
use std::io;
use std::io::Write;

/// Why a BVLL or an NPDU cannot be read, in words.
pub fn frame_reason(fault: FrameFault) -> &'static str
    ensures { result.now ≡ frame_reason fault }
{
    match fault {
        FrameFault::Truncated => "truncated",
        FrameFault::Version => "another version",
        FrameFault::ReservedBits => "reserved bits",
        FrameFault::BadNet => "bad network number",
        FrameFault::BadLength => "bad length",
        FrameFault::NotUnicast => "not Original-Unicast-NPDU",
    }
}

/// Why an APDU cannot be read, in words.
pub fn apdu_reason(fault: ApduFault) -> &'static str
    ensures { result.now ≡ apdu_reason fault }
{
    match fault {
        ApduFault::Truncated => "truncated",
        ApduFault::ReservedBits => "reserved bits",
        ApduFault::ReservedCode => "reserved max-APDU code",
        ApduFault::BadWindow => "bad window",
        ApduFault::BadType => "bad type",
        ApduFault::Trailing => "octets after the last member",
        ApduFault::MorWithoutSeg => "more-follows without segmented-message",
        ApduFault::BadError => "class or code is not Enumerated",
    }
}

/// Why tags or values cannot be read, in words.
pub fn kind_reason(kind: FaultKind) -> &'static str
    ensures { result.now ≡ kind_reason kind }
{
    match kind {
        FaultKind::Truncated => "truncated",
        FaultKind::ReservedTag => "reserved tag",
        FaultKind::LongForm => "long form",
        FaultKind::BadLength => "bad length",
        FaultKind::NotShortest => "not the shortest number",
        FaultKind::Unbalanced => "unbalanced tags",
        FaultKind::TooDeep => "too many open tags",
        FaultKind::ReservedBits => "reserved bits",
    }
}

/// A fault, and a reason in brackets behind it.
fn because(alloc: Global, fault: LayerFault, reason: &str) -> Result<String, AllocError>
    ensures { IfOk result (λ t. string_bytes t ≡ fault_because fault reason.now) }
{
    format!(in alloc; "{fault} ({reason})")
}

/// The function of a BVLL, if it is there.
pub fn function_in(datagram: &[u8]) -> Option<u8>
    ensures { result ≡ function_in datagram.now }
{
    match datagram {
        [_, function, ..] => Some(*function),
        _ => None,
    }
}

/// A function in hexadecimal.
fn function_digits(alloc: Global, function: Option<u8>) -> Result<String, AllocError>
    ensures { IfOk result (λ t. string_bytes t ≡ function_digits function) }
{
    match function {
        Some(function) => hex::encode_upper(alloc, &[function]),
        None => Ok(String::new(alloc)),
    }
}

fn function_reason(alloc: Global, function: Option<u8>) -> Result<String, AllocError>
    ensures { IfOk result (λ t. string_bytes t ≡ function_reason function) }
{
    let digits = function_digits(alloc, function)?;
    format!(in alloc; "function {digits}: not Original-Unicast-NPDU")
}

/// The fault of a BVLL; of one with another function that function too.
fn bvll_words(alloc: Global, function: Option<u8>, fault: FrameFault) -> Result<String, AllocError>
    ensures { IfOk result (λ t. string_bytes t ≡ bvll_words function fault) }
{
    match fault {
        FrameFault::NotUnicast => {
            let reason = function_reason(alloc, function)?;
            because(
                alloc,
                LayerFault::Bvll(FrameFault::NotUnicast),
                reason.as_str(),
            )
        }
        _ => because(alloc, LayerFault::Bvll(fault), frame_reason(fault)),
    }
}

fn request_words(alloc: Global, reason: u8) -> Result<String, AllocError>
    ensures { IfOk result (λ t. string_bytes t ≡ codes "fault reject " ++ reject_text reason) }
{
    let reason = reject_text(alloc, reason)?;
    format!(in alloc; "fault reject {reason}")
}

/// The fault of a datagram in words, as `fault bvll 6 (function 0B: not Original-Unicast-NPDU)`, where its BVLL has this function, if it is there.
/// The reason of a Reject is by its name in the standard.
pub fn fault_in_words(
    alloc: Global,
    function: Option<u8>,
    fault: LayerFault,
) -> Result<String, AllocError>
    ensures { IfOk result (λ t. string_bytes t ≡ fault_words function fault) }
{
    match fault {
        LayerFault::Bvll(why) => bvll_words(alloc, function, why),
        LayerFault::Npdu(why) => because(alloc, fault, frame_reason(why)),
        LayerFault::Apdu(why) => because(alloc, fault, apdu_reason(why)),
        LayerFault::Request(reject) => request_words(alloc, reject.reason()),
        LayerFault::ComplexAck(kind) => because(alloc, fault, kind_reason(kind)),
    }
}

/// Prints the line of a datagram's fault, by number or in words.
pub(crate) fn print_fault<W: Write>(
    alloc: Global,
    in_words: bool,
    datagram: &[u8],
    fault: LayerFault,
    out: &mut W,
) -> io::Result<()>
    ensures { OnOk result (Appends (W.contents out.old) (W.contents out.new) (fault_line in_words datagram.now fault)) }
{
    if !in_words {
        return writeln!(out, "{fault}");
    }
    let words = fault_in_words(alloc, function_in(datagram), fault)?;
    writeln!(out, "{words}")
}

/// What is wrong with a line of a capture, in words.
pub(crate) fn line_words(alloc: Global, fault: LineFault) -> Result<String, AllocError>
    ensures { IfOk result (λ t. string_bytes t ≡ line_fault_text true fault) }
{
    match fault {
        LineFault::NoCaptureLine => String::from_str(alloc, "not a capture line"),
        LineFault::MomentGoesBack => String::from_str(alloc, "moment goes back"),
        LineFault::Datagram { fault, function } => fault_in_words(alloc, function, fault),
    }
}
