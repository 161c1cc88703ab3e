//! The picture of a transaction: an arrow for each of its frames.
ghost use Rattle.std.specs.Prelude.{◌≡◌, IfOk, string_bytes};
ghost use Rattle.bac_explain.specs.KeyViews.{key_view};
ghost use Rattle.bac_explain_html.specs.Pictures.{IsAskedText, acknowledgement_words, arrow, arrow_front, arrows, heading, is_by_client, mark, numbered, role_words};
ghost use Rattle.bac_explain_html.specs.Pictures.{IsPicture};

use bac_explain::{Finding, Role, Step, Taken, TransactionKey};
use bac_moment::time_text;
use bac_text::peer_text;
use std::alloc::{AllocError, Global};

/// An arrow from the client to the server, up to its text.
pub(crate) const TO_SERVER: &str =
    "<svg viewBox=\"0 0 640 34\"><path class=\"l\" d=\"M60 0V34M580 0V34\"/><path class=\"a\" d=\"M60 28H576M568 23L578 28L568 33\"/><text x=\"320\" y=\"20\">";

/// An arrow from the server to the client, up to its text.
pub(crate) const TO_CLIENT: &str =
    "<svg viewBox=\"0 0 640 34\"><path class=\"l\" d=\"M60 0V34M580 0V34\"/><path class=\"a\" d=\"M580 28H64M72 23L62 28L72 33\"/><text x=\"320\" y=\"20\">";

/// Whether the client sends APDUs with this role.
fn is_by_client(role: Role) -> bool
    ensures { result ≡ is_by_client role }
{
    match role {
        Role::Request(_) | Role::GivesUp => true,
        Role::Answer(_) => false,
        Role::Acknowledgement(taken) => !taken.of_request,
    }
}

fn arrow_front(role: Role) -> &'static str
    ensures { result.now ≡ arrow_front role }
{
    if is_by_client(role) {
        TO_SERVER
    } else {
        TO_CLIENT
    }
}

/// A name, with the number of a segment if there is one.
fn numbered(alloc: Global, name: &str, number: Option<u8>) -> Result<String, AllocError>
    ensures { IfOk result (λ t. string_bytes t ≡ numbered name.now number) }
{
    match number {
        Some(number) => format!(in alloc; "{name} segment {number}"),
        None => String::from_str(alloc, name),
    }
}

fn acknowledgement_words(alloc: Global, taken: Taken) -> Result<String, AllocError>
    ensures { IfOk result (λ t. string_bytes t ≡ acknowledgement_words taken) }
{
    let number = taken.number;
    if taken.nak {
        format!(in alloc; "negative segment-ack {number}")
    } else {
        format!(in alloc; "segment-ack {number}")
    }
}

/// What an APDU is.
fn role_words(alloc: Global, role: Role) -> Result<String, AllocError>
    ensures { IfOk result (λ t. string_bytes t ≡ role_words role) }
{
    match role {
        Role::Request(number) => numbered(alloc, "request", number),
        Role::Answer(number) => numbered(alloc, "answer", number),
        Role::Acknowledgement(taken) => acknowledgement_words(alloc, taken),
        Role::GivesUp => String::from_str(alloc, "abort of the client"),
    }
}

/// What is wrong with a frame, below its arrow.
fn mark(alloc: Global, finding: Option<Finding>) -> Result<String, AllocError>
    ensures { IfOk result (λ t. string_bytes t ≡ mark finding) }
{
    match finding {
        Some(finding) => format!(in alloc; "<div class=\"m\">{finding}</div>"),
        None => Ok(String::new(alloc)),
    }
}

/// The arrow of a frame, with its moment after the request.
fn arrow(alloc: Global, asked: u64, step: Step) -> Result<String, AllocError>
    ensures { IfOk result (λ t. string_bytes t ≡ arrow asked step) }
{
    let front = arrow_front(step.role);
    let frame = step.frame;
    let after = step.moment.saturating_sub(asked);
    let words = role_words(alloc, step.role)?;
    let mark = mark(alloc, step.finding)?;
    format!(in alloc; "{front}+{after} ms, frame {frame}: {words}</text></svg>{mark}\n")
}

/// The arrows of frames, from the first on.
fn arrows(alloc: Global, asked: u64, steps: &[Step]) -> Result<Vec<u8>, AllocError>
    ensures { IfOk result (λ t. t.items ≡ arrows asked steps.now) }
{
    let mut text = Vec::new(alloc);
    for step in steps {
        let arrow = arrow(alloc, asked, *step)?;
        text.extend_from_slice(arrow.as_bytes())?;
    }
    Ok(text)
}

/// The names of the client and of the server, above their lines.
fn heading(alloc: Global, key: TransactionKey) -> Result<String, AllocError>
    ensures { IfOk result (λ t. string_bytes t ≡ heading (key_view key)) }
{
    let client = peer_text(alloc, key.client)?;
    let server = peer_text(alloc, key.server)?;
    format!(in alloc;
        "<svg viewBox=\"0 0 640 26\"><text class=\"s\" x=\"4\" y=\"18\">{client}</text><text class=\"e\" x=\"636\" y=\"18\">{server}</text></svg>\n"
    )
}

/// When the request was first seen.
fn asked_text(alloc: Global, asked: u64) -> Result<String, AllocError>
    ensures { IfOk result (λ t. IsAskedText asked (string_bytes t)) }
{
    match time_text(Some(asked)) {
        Some(time) => String::from_str(alloc, time.as_str()),
        None => format!(in alloc; "{asked} ms"),
    }
}

/// The picture of a transaction whose request was first seen at this moment.
pub(crate) fn picture(
    alloc: Global,
    key: TransactionKey,
    asked: u64,
    steps: &[Step],
) -> Result<Vec<u8>, AllocError>
    ensures { IfOk result (λ t. IsPicture (key_view key) asked steps.now t.items) }
{
    let when = asked_text(alloc, asked)?;
    let heading = heading(alloc, key)?;
    let arrows = arrows(alloc, asked, steps)?;
    let front = format!(in alloc; "<details><summary>asked {when}</summary>\n{heading}")?;
    let mut text = front.into_bytes();
    text.extend_from_slice(&arrows)?;
    text.extend_from_slice(b"</details>")?;
    Ok(text)
}
