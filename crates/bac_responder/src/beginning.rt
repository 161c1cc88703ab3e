//! IDLE by the rules of an end (clause 5.4.5.1): an APDU where no entry of its key is live, or where it ends the one that is. `hearing` calls `idle_by`.
ghost use Rattle.std.specs.Prelude.{◌≡◌, ◌&&◌, [], Some, None, MatchOption, false, not};
ghost use Rattle.bac_apdu.specs.Views.{apdu_view, limits_view};
ghost use Rattle.bac_protocol.specs.Reuse.{has_transfer, idle_on_read};
ghost use Rattle.bac_protocol.specs.Server.{begins, performs};
ghost use Rattle.bac_protocol.specs.Server as machine;
ghost use Rattle.bac_protocol.specs.Serving as serving;
ghost use Rattle.bac_transaction.specs.Services.{service_of};
ghost use Rattle.bac_transaction.specs.Views.{context_view, peer_of, read_rule_view};
ghost use Rattle.bac_responder.specs.Hearing.{BeginsSo, EntersWhereFree, HasBegunAt, HeedsRoom, TellsAway, whole_read};

use crate::ending::begins_request;
use crate::performed::Performed;
use crate::performing::commit;
use crate::reading::read_whole;
use crate::replying::{PreparedReply, prepare_reply};
use crate::server_transaction::{Origin, Terms};
use crate::{ServerTransaction, idle_on_apdu};
use bac_apdu::Apdu;
use bac_protocol::reasons::OTHER;
use bac_service::is_read_choice;
use bac_store::Store;
use bac_transaction::{Context, ReadRule, only_abort};
use bac_value::NoMemory;
use std::alloc::Global;

/// What an entry finds that is to begin.
#[derive(Clone, Copy)]
pub(crate) struct Space {
    /// Whether a slot is free.
    pub(crate) free: bool,
    /// Whether memory has room.
    pub(crate) room: bool,
}

/// What an APDU makes of a key without a live entry.
#[derive(Drop)]
pub(crate) struct Begun {
    pub(crate) performed: Performed,
    /// The entry that begins, if any.
    pub(crate) entry: Option<ServerTransaction>,
    /// Whether it is turned away.
    pub(crate) turned_away: bool,
}

/// A read comes without SEG: it is performed, and begins an entry only where its reply goes in segments. None where memory has no room for that.
fn on_read(
    alloc: Global,
    context: &Context,
    space: Space,
    terms: Terms,
    octets: &[u8],
    store: &mut Store,
) -> Result<Option<Begun>, NoMemory>
    ensures does { BeginsSo (λ dead. idle_on_read (context_view context.now) (service_of store.old) dead space.free terms.choice (limits_view terms.limits) octets.now)
        (peer_of context.now) store.old result store.new }
    ensures away { TellsAway (has_transfer (performs (context_view context.now) (service_of store.old)
        (begins (context_view context.now) terms.choice (limits_view terms.limits) (Some octets.now)) [] octets.now).entry && not space.free) result }
    ensures room { HeedsRoom space.room (not (has_transfer (performs (context_view context.now) (service_of store.old)
        (begins (context_view context.now) terms.choice (limits_view terms.limits) (Some octets.now)) [] octets.now).entry)) result }
    ensures free { EntersWhereFree space.free result }
    ensures begin { HasBegunAt context.now.moment result }
{
    let Space { free, room } = space;
    let found = read_whole(alloc, terms.choice, octets)?;
    let PreparedReply {
        state,
        sends,
        commit: change,
    } = prepare_reply(alloc, context, terms, found, store)?;
    if !state.goes_in_segments() {
        let effect = commit(change, store);
        return Ok(Some(Begun {
            performed: Performed { sends, effect },
            entry: None,
            turned_away: false,
        }));
    }
    if !room {
        return Ok(None);
    }
    if !free {
        let refusal = only_abort(alloc, context, true, OTHER)?;
        return Ok(Some(Begun {
            performed: Performed::sends(refusal),
            entry: None,
            turned_away: true,
        }));
    }
    // before the commit, so that nothing can fail once the store has changed
    let request = Vec::from_slice(alloc, octets)?;
    let effect = commit(change, store);
    let origin = Origin {
        begin: context.moment,
        terms,
        request: Some(request),
        first: None,
    };
    Ok(Some(Begun {
        performed: Performed { sends, effect },
        entry: Some(ServerTransaction { origin, state }),
        turned_away: false,
    }))
}

/// What a read without SEG says, where reads are performed anew; None of any other APDU.
fn whole_read<'a>(reads: ReadRule, apdu: &Apdu<'a>) -> Option<(Terms, &'a [u8])>
    ensures { MatchOption result (whole_read (read_rule_view reads) (apdu_view apdu.now) ≡ None)
        (λ x. whole_read (read_rule_view reads) (apdu_view apdu.now) ≡ Some (record { choice = x.0.choice; limits = limits_view x.0.limits; octets = x.1.now })) }
{
    if matches!(reads, ReadRule::Kept) {
        return None;
    }
    let Apdu::ConfirmedRequest {
        limits,
        segment,
        choice,
        service,
        ..
    } = *apdu
    else {
        return None;
    };
    if segment.is_some() || !is_read_choice(choice) {
        return None;
    }
    Some((Terms { choice, limits }, service))
}

/// Any other APDU comes: a request begins an entry where a slot is free, and is turned away where none is. None where memory has no room.
fn on_other(
    alloc: Global,
    context: &Context,
    space: Space,
    apdu: &Apdu<'_>,
    store: &mut Store,
) -> Result<Option<Begun>, NoMemory>
    ensures does { BeginsSo (λ dead. machine.idle_on_apdu (context_view context.now) (service_of store.old) dead space.free (apdu_view apdu.now))
        (peer_of context.now) store.old result store.new }
    ensures away { TellsAway (serving.begins_request (apdu_view apdu.now) && not space.free) result }
    ensures room { HeedsRoom space.room false result }
    ensures free { EntersWhereFree space.free result }
    ensures begin { HasBegunAt context.now.moment result }
{
    let Space { free, room } = space;
    if !room {
        return Ok(None);
    }
    let (performed, entry) = idle_on_apdu(alloc, context, free, apdu, store)?;
    Ok(Some(Begun {
        performed,
        entry,
        turned_away: begins_request(apdu) && !free,
    }))
}

/// An APDU comes where no entry of its key is live, or where it ends the one that is. None where memory has no room for what it needs.
pub(crate) fn idle_by(
    alloc: Global,
    context: &Context,
    reads: ReadRule,
    space: Space,
    apdu: &Apdu<'_>,
    store: &mut Store,
) -> Result<Option<Begun>, NoMemory>
    ensures does { BeginsSo (λ dead. serving.idle_by (context_view context.now) (service_of store.old) (read_rule_view reads) dead space.free (apdu_view apdu.now))
        (peer_of context.now) store.old result store.new }
    ensures away { TellsAway (serving.needs_slot (context_view context.now) (service_of store.old) (read_rule_view reads) (apdu_view apdu.now) && not space.free) result }
    ensures room { HeedsRoom space.room (serving.needs_no_slot (context_view context.now) (service_of store.old) (read_rule_view reads) (apdu_view apdu.now)) result }
    ensures free { EntersWhereFree space.free result }
    ensures begin { HasBegunAt context.now.moment result }
{
    match whole_read(reads, apdu) {
        Some((terms, octets)) => on_read(alloc, context, space, terms, octets, store),
        None => on_other(alloc, context, space, apdu, store),
    }
}
