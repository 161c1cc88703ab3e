//! What is asked.
ghost use Rattle.std.specs.Prelude.{◌≡◌, map};
ghost use Rattle.bac_npdu.specs.Views.{peer_view};
ghost use Rattle.bac_service.specs.Views.{owned_request_view};
ghost use Rattle.bac_driver.specs.Views.{question_view};
ghost use Rattle.bac_commands.specs.Questions.{ReadsQuestion, peer_at, question_for};

use crate::fresh_node::LIMITS;
use bac_driver::Question;
use bac_npdu::{LinkAddress, Peer};
use bac_service::OwnedRequest;
use bac_service_text::{FormFault, read_request_words};
use std::alloc::Global;

/// The peer at an address, behind no router.
pub(crate) fn peer_at(link: LinkAddress) -> Peer
    ensures { peer_view result ≡ peer_at link }
{
    Peer { link, route: None }
}

/// A question for a peer, which takes APDUs of 1,476 octets and any number of segments.
pub(crate) fn question_for(peer: Peer, request: OwnedRequest) -> Question
    ensures { question_view result ≡ question_for (peer_view peer) (owned_request_view request) }
{
    Question {
        peer,
        limits: LIMITS,
        request,
    }
}

/// The question that some words are, for a peer, which takes APDUs of 1,476 octets and any number of segments.
///
/// `NoForm` where the words are no request, `NoMemory` where memory was refused.
pub fn read_question(alloc: Global, peer: Peer, words: &[&[u8]]) -> Result<Question, FormFault>
    ensures { ReadsQuestion (peer_view peer) (map (λ w. w.now) words.now) result }
{
    let request = read_request_words(alloc, words)?;
    Ok(question_for(peer, request))
}
