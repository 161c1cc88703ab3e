//! What a node is asked for.
ghost use Rattle.std.specs.Prelude.{◌≡◌, map, IfErr, IfOk};
ghost use Rattle.bac_npdu.specs.Views.{peer_view};
ghost use Rattle.bac_service.specs.Views.{owned_request_view, property_reference_view};
ghost use Rattle.bac_service.specs.Values.Request.{ReadProperty};
ghost use Rattle.bac_driver.specs.Views.{question_view};
ghost use Rattle.bac_commands.specs.Questions.{IsQuestion, question_for};
ghost use Rattle.bac_text.specs.Statuses.{IsStop};
ghost use Rattle.bac_point_report.specs.Targets.{target_view};
ghost use Rattle.bac_points.specs.Reads.{asked_of, question_in, read_by};

use bac_apdu::Limits;
use bac_asking::question_in;
use bac_commands::Style;
use bac_driver::Question;
use bac_environment::{LineQuestion, print_bad_words};
use bac_npdu::Peer;
use bac_point_report::Target;
use bac_service::{AnyRequest, OwnedRequest, PropertyReference};
use bac_service_text::FormFault;
use bac_text::{Status, no_memory};
use std::alloc::{AllocError, Global};
use std::io::Write;

/// So many asks are under way at once.
pub(crate) const WINDOW: u64 = 8;

/// APDUs of 1,476 octets, and any number of segments.
const LIMITS: Limits = Limits {
    max_apdu: 5,
    takes_segments: true,
    max_segments: 7,
};

/// The question that asks for a request.
pub(crate) fn question_for(peer: Peer, request: OwnedRequest) -> Question
    ensures { question_view result ≡ question_for (peer_view peer) (owned_request_view request) }
{
    Question {
        peer,
        limits: LIMITS,
        request,
    }
}

/// The question for a property.
pub(crate) fn question_of(peer: Peer, reference: PropertyReference) -> Question
    ensures { question_view result ≡ question_for (peer_view peer) (ReadProperty (property_reference_view reference)) }
{
    question_for(peer, AnyRequest::ReadProperty(reference))
}

/// The line of a question in a list without names.
fn line_of(place: usize, question: Question) -> LineQuestion
    ensures { result.question ≡ question }
{
    LineQuestion {
        number: (place as u64).saturating_add(1),
        name: None,
        question,
    }
}

/// The questions for properties.
pub(crate) fn lines_for(
    alloc: Global,
    peer: Peer,
    references: &[PropertyReference],
) -> Result<Vec<LineQuestion>, AllocError>
    ensures { IfOk result (λ lines. map question_in lines.items ≡ map (asked_of (peer_view peer)) (map property_reference_view references.now)) }
{
    let mut lines = Vec::new(alloc);
    for (place, reference) in references.iter().enumerate() {
        lines.push(line_of(place, question_of(peer, *reference)))?;
    }
    Ok(lines)
}

/// The question that some words are. Where they are no request, or memory is refused, `err` and the status say so.
pub(crate) fn question_by<E: Write>(
    alloc: Global,
    peer: Peer,
    words: &[&str],
    err: &mut E,
) -> Result<Question, Status>
    ensures read { IfOk result (λ q. IsQuestion (peer_view peer) (map (λ w. w.now) words.now) (question_view q)) }
    ensures told { IfErr result IsStop }
{
    match question_in(alloc, peer, words) {
        Ok(question) => Ok(question),
        Err(FormFault::NoMemory) => Err(no_memory(err)),
        Err(FormFault::NoForm) => match print_bad_words(alloc, Style::Words, words, err) {
            Ok(()) => Err(Status::CommandLine),
            Err(_) => Err(no_memory(err)),
        },
    }
}

/// The questions for properties that words name. Where a word is for no object or property, `err` and the status say so.
pub(crate) fn lines_in<E: Write>(
    alloc: Global,
    peer: Peer,
    targets: &[Target<'_>],
    err: &mut E,
) -> Result<Vec<LineQuestion>, Status>
    ensures read { IfOk result (λ lines. map question_in lines.items ≡ map (read_by (peer_view peer)) (map target_view targets.now)) }
    ensures told { IfErr result IsStop }
{
    let mut lines = Vec::new(alloc);
    for (place, target) in targets.iter().enumerate() {
        let words = ["read", target.object, target.property];
        let question = question_by(alloc, peer, &words, err)?;
        if lines.push(line_of(place, question)).is_err() {
            return Err(no_memory(err));
        }
    }
    Ok(lines)
}
