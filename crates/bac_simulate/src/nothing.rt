//! Why nothing came of an event.
ghost use Rattle.std.specs.Prelude.{◌≡◌, ◌-◌, nat_le, slice_get};
ghost use Rattle.bac_simulate.specs.Views.{happening_view};
ghost use Rattle.bac_simulate.specs.Worded.{why_copy, why_delivered, why_nothing, why_words};

use crate::marks::count_of;
use bac_journal::Copy;
use bac_network::{Event, World};

/// Why nothing came of an event.
#[derive(Clone, Copy, PartialEq, Eq)]
pub(crate) enum Why {
    /// The copy was sent longer ago than a copy lives, and is lost.
    TooOld,
    /// More later copies of its transaction were sent than may overtake it, and it is lost.
    Overtaken,
    /// It came to its node, which sent nothing for it.
    Heard,
    /// The octets came from no node, and mean nothing.
    Dropped,
    /// The node had nothing to send, and no ask that ended.
    Idle,
    /// The clock went on, and no node saw it yet.
    Passed,
    /// Octets of a stranger came to a node; what it sends to strangers is not followed.
    HeardStranger,
    /// A node began, of which nothing is noted.
    Begun,
}

fn is_young(life: u64, now: u64, copy: &Copy) -> bool
    ensures { result ≡ nat_le (now - copy.now.moment) life }
{
    now.saturating_sub(copy.moment) <= life
}

fn are_few(later: usize, overtake: u8) -> bool
    ensures { result ≡ nat_le later overtake }
{
    later <= usize::from(overtake)
}

fn why_copy(is_young: bool, few: bool) -> Why
    ensures { result ≡ why_copy is_young few }
{
    if !is_young {
        return Why::TooOld;
    }
    if few { Why::Heard } else { Why::Overtaken }
}

/// Of a copy that is about to come to its node.
fn why_delivered(world: &World, number: usize) -> Why
    ensures { result ≡ why_delivered world.now number (slice_get world.now.copies number) }
{
    let copies = world.copies();
    if number >= copies.len() {
        return Why::Heard;
    }
    let copy = &copies[number];
    let later = count_of(&copy.transaction, &copies[number + 1..]);
    let is_young = is_young(world.life(), world.now(), copy);
    why_copy(is_young, are_few(later, world.overtake()))
}

/// Of an event that is about to happen in a world, if nothing comes of it.
pub(crate) fn why_nothing(world: &World, event: &Event) -> Why
    ensures { result ≡ why_nothing world.now (happening_view event.now) }
{
    match event {
        Event::Deliver { number } => why_delivered(world, *number),
        Event::Noise { .. } => Why::Dropped,
        Event::Stranger { .. } => Why::HeardStranger,
        Event::Tick { .. } => Why::Idle,
        Event::Advance { .. } => Why::Passed,
        Event::Ask { .. }
        | Event::AskStranger { .. }
        | Event::Change { .. }
        | Event::Restart { .. }
        | Event::BeginAgain { .. } => Why::Heard,
        Event::Begin { .. } => Why::Begun,
    }
}

/// Why nothing came of an event, in words.
pub(crate) fn why_words(why: Why) -> &'static str
    ensures { result.now ≡ why_words why }
{
    match why {
        Why::TooOld => "lost: too old",
        Why::Overtaken => "lost: overtaken",
        Why::Heard => "heard, nothing sent",
        Why::Dropped => "ignored",
        Why::Idle => "idle",
        Why::Passed => "time passed",
        Why::HeardStranger => "heard",
        Why::Begun => "begun",
    }
}
