//! What comes of events, in words or as objects of JSON.
ghost use Rattle.std.specs.Prelude.{drop, map, IfOk, OnOk};
ghost use Rattle.bac_journal.specs.Notes.{note_view};
ghost use Rattle.bac_journal.specs.Views.{copy_view};
ghost use Rattle.bac_network.specs.Views.{fact_view};
ghost use Rattle.bac_simulate.specs.Told.{Adds, AreFactTexts, AreNews, AreSentTexts, IsEndText, IsFactText, IsHeadText, IsLostText, IsNothingText, IsOutcome};
ghost use Rattle.bac_simulate.specs.Told.{IsPacedText, IsRefusalText, IsSentText};
ghost use Rattle.bac_simulate.specs.Views.{happening_view};

use crate::event_style::EventStyle;
use crate::fault_words::{fault_words, fault_words_line};
use crate::moments::ms_now;
use crate::nothing::{Why, why_words};
use crate::objects::{copy_object, end_object, fact_object, object_at, paced_object};
use crate::printing::{Seen, is_as_before};
use crate::words::{
    event_line, fact_line, lose_text, news_line, pace_line, refused_line, sent_line,
};
use bac_commands::ask_fault_words;
use bac_journal::{Copy, Note};
use bac_log_json::EventKind;
use bac_network::{Event, Fact, World};
use bac_requester::AskFault;
use std::alloc::Global;
use std::io;

/// How, and at which moment in milliseconds, it is told what came.
#[derive(Clone, Copy)]
pub(crate) struct Teller {
    pub(crate) alloc: Global,
    pub(crate) style: EventStyle,
    pub(crate) moment: u64,
}

// ---- single lines

impl Teller {
    /// An event; an object has its moment itself.
    pub(crate) fn head_text(self, event: &Event) -> io::Result<Vec<u8>>
        ensures { IfOk result (λ t. IsHeadText self.style self.moment (happening_view event.now) t.items) }
    {
        match self.style {
            EventStyle::Words => event_line(self.alloc, self.moment, event),
            EventStyle::Objects => Ok(Vec::new(self.alloc)),
        }
    }

    /// A fact, where these are the accepted asks.
    fn fact_text(self, asks: &[Note], fact: &Fact) -> io::Result<Vec<u8>>
        ensures { IfOk result (λ t. IsFactText self.style (map note_view asks.now) self.moment (fact_view fact.now) t.items) }
    {
        match self.style {
            EventStyle::Words => fact_line(self.alloc, fact),
            EventStyle::Objects => fact_object(self.alloc, self.moment, asks, fact),
        }
    }

    /// A copy that was sent.
    fn sent_text(self, number: usize, copy: &Copy) -> io::Result<Vec<u8>>
        ensures { IfOk result (λ t. IsSentText self.style self.moment number (copy_view copy.now) t.items) }
    {
        match self.style {
            EventStyle::Words => sent_line(self.alloc, number, copy),
            EventStyle::Objects => copy_object(self.alloc, self.moment, number, copy),
        }
    }

    /// Tells that nothing came of an event, and why.
    fn nothing_text(self, why: Why) -> io::Result<Vec<u8>>
        ensures { IfOk result (λ t. IsNothingText self.style self.moment why t.items) }
    {
        let why = why_words(why);
        match self.style {
            EventStyle::Words => Ok(news_line(self.alloc, why.as_bytes())?),
            EventStyle::Objects => object_at(self.alloc, self.moment, EventKind::Nothing { why }),
        }
    }

    /// Tells that an ask or a change was refused, by the number of the fault, and why.
    pub(crate) fn refusal_text(self, fault: u8, why: &str) -> io::Result<Vec<u8>>
        ensures { IfOk result (λ t. IsRefusalText self.style self.moment fault why.now t.items) }
    {
        match self.style {
            EventStyle::Words => Ok(refused_line(self.alloc, fault, why)?),
            EventStyle::Objects => {
                object_at(self.alloc, self.moment, EventKind::Refused { fault, why })
            }
        }
    }

    /// Tells that a copy counts as lost.
    pub(crate) fn lost_text(self, copy: u64) -> io::Result<Vec<u8>>
        ensures { IfOk result (λ t. IsLostText self.style self.moment copy t.items) }
    {
        match self.style {
            EventStyle::Words => Ok(lose_text(self.alloc, self.moment, copy)?),
            EventStyle::Objects => {
                object_at(self.alloc, self.moment, EventKind::Lost { number: copy })
            }
        }
    }

    /// Tells that a node's clock goes at this rate from then on.
    pub(crate) fn paced_text(self, node: u64, rate: u32) -> io::Result<Vec<u8>>
        ensures { IfOk result (λ t. IsPacedText self.style self.moment node rate t.items) }
    {
        match self.style {
            EventStyle::Words => Ok(pace_line(self.alloc, self.moment, node, rate)?),
            EventStyle::Objects => paced_object(self.alloc, self.moment, node, rate),
        }
    }
}

/// The fault that ends a script at that line.
pub(crate) fn end_text(
    alloc: Global,
    style: EventStyle,
    line: u64,
    fault: u8,
) -> io::Result<Vec<u8>>
    ensures { IfOk result (λ t. IsEndText style line fault t.items) }
{
    match style {
        EventStyle::Words => Ok(fault_words_line(alloc, line, fault)?),
        EventStyle::Objects => end_object(alloc, line, fault, fault_words(fault)),
    }
}

// ---- all that came of an event

/// Adds the facts after so many.
fn add_facts(
    teller: Teller,
    asks: &[Note],
    log: &[Fact],
    before: usize,
    text: &mut Vec<u8>,
) -> io::Result<()>
    ensures { OnOk result (Adds text.old.items text.new.items
        (AreFactTexts teller.style (map note_view asks.now) teller.moment (drop before (map fact_view log.now)))) }
{
    for number in before..log.len() {
        let fact = teller.fact_text(asks, &log[number])?;
        text.extend_from_slice(fact.as_slice())?;
    }
    Ok(())
}

/// Adds the copies after so many.
fn add_copies(teller: Teller, copies: &[Copy], before: usize, text: &mut Vec<u8>) -> io::Result<()>
    ensures { OnOk result (Adds text.old.items text.new.items (AreSentTexts teller.style teller.moment before (drop before (map copy_view copies.now)))) }
{
    for number in before..copies.len() {
        let sent = teller.sent_text(number, &copies[number])?;
        text.extend_from_slice(sent.as_slice())?;
    }
    Ok(())
}

fn news_text(alloc: Global, style: EventStyle, world: &World, before: Seen) -> io::Result<Vec<u8>>
    ensures { IfOk result (λ t. AreNews style before.facts before.copies world.now t.items) }
{
    let teller = Teller {
        alloc,
        style,
        moment: ms_now(world),
    };
    let mut text = Vec::new(alloc);
    add_facts(teller, world.asks(), world.log(), before.facts, &mut text)?;
    add_copies(teller, world.copies(), before.copies, &mut text)?;
    Ok(text)
}

/// What came of an event: that the ask was refused, what is new in the world, or why nothing is.
pub(crate) fn outcome_text(
    alloc: Global,
    style: EventStyle,
    world: &World,
    before: Seen,
    why: Why,
    refused: Option<AskFault>,
) -> io::Result<Vec<u8>>
    ensures { IfOk result (λ t. IsOutcome style refused why before.facts before.copies world.now t.items) }
{
    let teller = Teller {
        alloc,
        style,
        moment: ms_now(world),
    };
    if let Some(fault) = refused {
        return teller.refusal_text(fault.number(), ask_fault_words(fault));
    }
    if is_as_before(world, before) {
        return teller.nothing_text(why);
    }
    news_text(alloc, style, world, before)
}
