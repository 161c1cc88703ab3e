//! The members of the object of a transaction, in groups.
ghost use Rattle.bac_explain_json.specs.Members.{answered_view, asked_view, end_view, peers_view};
ghost use Rattle.bac_explain_json.specs.Objects.{with_answered, with_asked, with_end, with_peers};
ghost use Rattle.bac_json.specs.Members.{Extends};

use bac_json::Members;
use serde_json::Value as Json;

/// The client, the server and the invoke ID.
#[derive(Drop)]
pub(crate) struct PeerMembers {
    pub client: Json,
    pub invoke_id: Json,
    pub server: Json,
}

/// The request.
#[derive(Drop)]
pub(crate) struct AskedMembers {
    pub asked_at: Json,
    pub request: Json,
    pub request_text: Json,
    pub requests: Json,
    pub segments: Json,
    pub time: Json,
}

/// The first answer.
#[derive(Drop)]
pub(crate) struct AnsweredMembers {
    pub after: Json,
    pub answer: Json,
    pub answer_segments: Json,
    pub answer_text: Json,
    pub answers: Json,
}

/// How it ended.
#[derive(Drop)]
pub(crate) struct EndMembers {
    pub findings: Json,
    pub frames: Json,
    pub given_up: Json,
    pub negative_acks: Json,
    pub status: Json,
    pub unanswered: Json,
}

impl PeerMembers {
    pub(crate) fn put_in(self, object: Members) -> Members
        ensures { Extends (with_peers (peers_view self)) object result }
    {
        object
            .json("client", self.client)
            .json("invoke_id", self.invoke_id)
            .text("kind", "transaction")
            .json("server", self.server)
    }
}

impl AskedMembers {
    pub(crate) fn put_in(self, object: Members) -> Members
        ensures { Extends (with_asked (asked_view self)) object result }
    {
        object
            .json("asked_at", self.asked_at)
            .json("request", self.request)
            .json("request_text", self.request_text)
            .json("requests", self.requests)
            .json("segments", self.segments)
            .json("time", self.time)
    }
}

impl AnsweredMembers {
    pub(crate) fn put_in(self, object: Members) -> Members
        ensures { Extends (with_answered (answered_view self)) object result }
    {
        object
            .json("after", self.after)
            .json("answer", self.answer)
            .json("answer_segments", self.answer_segments)
            .json("answer_text", self.answer_text)
            .json("answers", self.answers)
    }
}

impl EndMembers {
    pub(crate) fn put_in(self, object: Members) -> Members
        ensures { Extends (with_end (end_view self)) object result }
    {
        object
            .json("findings", self.findings)
            .json("frames", self.frames)
            .json("given_up", self.given_up)
            .json("negative_acks", self.negative_acks)
            .json("status", self.status)
            .json("unanswered", self.unanswered)
    }
}
