//! The line of a chart that a mark is.
ghost use Rattle.std.specs.Prelude.{◌≡◌, nat_eq, map, IfOk, string_bytes};
ghost use Rattle.std.specs.Option.{option_map};
ghost use Rattle.bac_chart.specs.Lines.{again_words, coming_line, coming_words, line_of, lost_line, lost_words, note_line, sent_words};
ghost use Rattle.bac_chart.specs.Marks.{comes, is_coming};
ghost use Rattle.bac_chart.specs.Views.{arrow_view, line_view, mark_view};

use crate::mark::{Arrow, Mark};
use std::alloc::{AllocError, Global};

/// A line of a chart: an arrow between two nodes; or at one node, where both are one, what happens there.
#[derive(Debug, Drop)]
pub struct Line {
    /// The moment, in milliseconds.
    pub moment: u64,
    /// The node at which an arrow begins.
    pub from: u64,
    /// The node that it goes to.
    pub to: u64,
    /// Whether the datagram never comes.
    pub is_lost: bool,
    /// What stands beside it.
    pub words: Vec<u8>,
}

/// Whether the mark is that the datagram of that number comes.
fn is_coming(number: u64, mark: &Mark) -> bool
    ensures { result ≡ is_coming number (mark_view mark.now) }
{
    match mark {
        Mark::Came { arrow, .. } => arrow.number == number,
        _ => false,
    }
}

/// Whether the datagram of that number comes at one of these marks.
fn comes(number: u64, marks: &[Mark]) -> bool
    ensures { result ≡ comes number (map mark_view marks.now) }
{
    for mark in marks {
        if is_coming(number, mark) {
            return true;
        }
    }
    false
}

/// When a datagram was sent, if that is another moment than that of its coming.
fn sent_words(alloc: Global, moment: u64, sent: u64) -> Result<String, AllocError>
    ensures { IfOk result (λ t. string_bytes t ≡ sent_words (nat_eq moment sent) sent) }
{
    if moment == sent {
        Ok(String::new(alloc))
    } else {
        format!(in alloc; " sent at {sent}")
    }
}

fn again_words(again: bool) -> &'static str
    ensures { result.now ≡ again_words again }
{
    if again { " again" } else { "" }
}

fn coming_words(
    alloc: Global,
    again: bool,
    moment: u64,
    arrow: &Arrow,
) -> Result<Vec<u8>, AllocError>
    ensures { IfOk result (λ t. t.items ≡ coming_words again moment (arrow_view arrow.now)) }
{
    let number = arrow.number;
    let again = again_words(again);
    let sent = sent_words(alloc, moment, arrow.sent)?;
    let mut words = format!(in alloc; "{number}{again}{sent} ")?.into_bytes();
    words.extend_from_slice(&arrow.words)?;
    Ok(words)
}

fn lost_words(alloc: Global, arrow: &Arrow) -> Result<Vec<u8>, AllocError>
    ensures { IfOk result (λ t. t.items ≡ lost_words (arrow_view arrow.now)) }
{
    let number = arrow.number;
    let mut words = format!(in alloc; "{number} lost ")?.into_bytes();
    words.extend_from_slice(&arrow.words)?;
    Ok(words)
}

/// The line of a datagram that never comes, at the moment of its sending.
fn lost_line(alloc: Global, arrow: &Arrow) -> Result<Line, AllocError>
    ensures { IfOk result (λ l. line_view l ≡ lost_line (arrow_view arrow.now)) }
{
    Ok(Line {
        moment: arrow.sent,
        from: arrow.from,
        to: arrow.to,
        is_lost: true,
        words: lost_words(alloc, arrow)?,
    })
}

/// The line of a datagram that comes at a moment: its number, whether it came before, when it was sent where that is another moment, and its words.
pub fn coming_line(
    alloc: Global,
    again: bool,
    moment: u64,
    arrow: &Arrow,
) -> Result<Line, AllocError>
    ensures { IfOk result (λ l. line_view l ≡ coming_line again moment (arrow_view arrow.now)) }
{
    Ok(Line {
        moment,
        from: arrow.from,
        to: arrow.to,
        is_lost: false,
        words: coming_words(alloc, again, moment, arrow)?,
    })
}

/// The line of what happens at a node.
pub fn note_line(alloc: Global, moment: u64, node: u64, words: &[u8]) -> Result<Line, AllocError>
    ensures { IfOk result (λ l. line_view l ≡ note_line moment node words.now) }
{
    Ok(Line {
        moment,
        from: node,
        to: node,
        is_lost: false,
        words: Vec::from_slice(alloc, words)?,
    })
}

/// The line that a mark is, where other marks come before and after it; None of a datagram that is drawn where it comes.
pub(crate) fn line_of(
    alloc: Global,
    before: &[Mark],
    mark: &Mark,
    after: &[Mark],
) -> Result<Option<Line>, AllocError>
    ensures { IfOk result (λ o. option_map line_view o ≡ line_of (map mark_view before.now) (mark_view mark.now) (map mark_view after.now)) }
{
    match mark {
        Mark::Sent(arrow) if comes(arrow.number, after) => Ok(None),
        Mark::Sent(arrow) => Ok(Some(lost_line(alloc, arrow)?)),
        Mark::Came { moment, arrow } => {
            let again = comes(arrow.number, before);
            Ok(Some(coming_line(alloc, again, *moment, arrow)?))
        }
        Mark::Note {
            moment,
            node,
            words,
        } => Ok(Some(note_line(alloc, *moment, *node, words)?)),
    }
}
