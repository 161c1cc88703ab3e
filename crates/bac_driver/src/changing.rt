//! What turns change in the store of the node, and that the keeper of the store is told of it. `holding` calls it.
ghost use Rattle.std.specs.Prelude.{◌≡◌, true, false, IfSome, OnErr, OnOk};
ghost use Rattle.bac_service.specs.Views.{owned_reply_view};
ghost use Rattle.bac_store.specs.Changes.{is_done as is_done_in};
ghost use Rattle.bac_node.specs.Views.{performed_view};
ghost use Rattle.bac_world.specs.Services.{store_after};
ghost use Rattle.bac_driver.specs.Rounds.{FindsNoMore, HasNoted, IsReplied, changes_store as changes_store_in, is_change};
ghost use Rattle.bac_driver.specs.Turns.{performed_of};
ghost use Rattle.bac_driver.specs.Views.{turn_view};

use crate::turn::Turn;
use bac_keep::{KeepFault, Keeper, note_request};
use bac_node::Act;
use bac_service::{AnyReply, OwnedReply, is_read_choice};
use bac_store::{Store, writes_change_one_thing};

/// Whether a reply is not an Error.
fn is_done(reply: &OwnedReply) -> bool
    ensures { result ≡ is_done_in (owned_reply_view reply.now) }
{
    match reply {
        AnyReply::Simple | AnyReply::Complex(_) => true,
        AnyReply::Error { .. } | AnyReply::Reject(_) => false,
    }
}

/// Whether a performed request changed the store: a write whose reply is not an Error.
fn is_change(act: &Act) -> bool
    ensures { result ≡ is_change (performed_view act.now) }
{
    !is_read_choice(act.effect.request.as_request().choice()) && is_done(&act.effect.reply)
}

impl Turn {
    /// Whether the node performed a write in it, whose reply is not an Error. No other turn changes the store.
    pub fn changes_store(&self) -> bool
        ensures { result ≡ changes_store_in (turn_view self.now) }
    {
        match self.effect() {
            Some(act) => is_change(act),
            None => false,
        }
    }
}

/// Notes what a turn changed in the store, which is what it is now. If it changed nothing, the keeper is as before.
pub(crate) fn note_turn<K: Keeper>(
    keeper: &mut K,
    turn: &Turn,
    store: &Store,
) -> Result<(), KeepFault>
    requires open { K.IsHonest keeper.old → K.IsOpen keeper.old }
    requires made { K.IsHonest keeper.old → store.now ≡ store_after (K.noted keeper.old) (performed_of (turn_view turn.now).heard) }
    requires reply { K.IsHonest keeper.old → IfSome (performed_of (turn_view turn.now).heard) (IsReplied (K.noted keeper.old)) }
    ensures noted { OnOk result (K.IsHonest keeper.new → HasNoted K.IsOpen K.noted keeper.new store.now) }
    ensures kept { OnOk result (K.IsHonest keeper.new → K.kept keeper.new ≡ K.kept keeper.old) }
    ensures same { OnOk result (changes_store_in (turn_view turn.now) ≡ false → keeper.new ≡ keeper.old) }
    ensures changed { OnErr result (changes_store_in (turn_view turn.now) ≡ true) }
    ensures crash { FindsNoMore K.IsHonest K.may_find keeper.old keeper.new }
    ensures base { K.base keeper.new ≡ K.base keeper.old }
{
    // a read, and a request whose reply is an Error, change nothing, so the keeper needs to hear of no other
    writes_change_one_thing();
    let Some(act) = turn.effect() else {
        return Ok(());
    };
    if !is_change(act) {
        return Ok(());
    }
    note_request(
        keeper,
        act.effect.request.as_request(),
        act.effect.reply.as_reply(),
        store,
    )?;
    Ok(())
}
