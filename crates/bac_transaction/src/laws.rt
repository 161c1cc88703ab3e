//! Laws of the definitions: each function's contract is one.
ghost use Rattle.std.specs.Prelude.{◌≡◌, ℕ};
ghost use Rattle.bac_apdu.specs.Apdu.{Limits};
ghost use Rattle.bac_npdu.specs.Peers.{PeerView};
ghost use Rattle.bac_protocol.specs.Context.{Settings};
ghost use Rattle.bac_segment.specs.Limits.{DATA};
ghost use Rattle.bac_store.specs.ReplyLengths.{DATA_LIMIT};
ghost use Rattle.bac_protocol.specs.Service.{Octets};
ghost use Rattle.bac_transaction.specs.Ends.{ClientEnd};
ghost use Rattle.std.specs.Cmp.{IsTotalOrder};
ghost use Rattle.std.specs.declared.cmp.Ordering.TheVariants.{Equal};
ghost use Rattle.bac_protocol.specs.Client as client;
ghost use Rattle.bac_protocol.specs.Client.{ClientTransaction};
ghost use Rattle.bac_transaction.specs.Ends.{is_held, kept};
ghost use Rattle.bac_transaction.specs.Keys.{PeerKey, peer_key_cmp};
ghost use Rattle.bac_transaction.specs.Tables.{ClientStaysOrderly, ClientOthersStay, TakesLeastFree, TakesLeastFromZero, RefusesAsks, ServerStaysOrderly, ServerOthersStay, TicksLeaveLive, TurnsAway};

/// The order of keys is total, and tells any two apart.
#[tactic(auto, using(crate::proofs::KeyOrder::keys_total, crate::proofs::KeyOrder::keys_equal))]
pub fn keys_in_order()
    ensures total { IsTotalOrder peer_key_cmp }
    ensures exact { (a b : PeerKey) → peer_key_cmp a b ≡ Equal → a ≡ b }
{}

/// A slot is held, by what it keeps of its ticket, exactly while the ticket's machine says that it is.
#[tactic(auto, using(crate::proofs::Holding::held_is))]
pub fn slots_are_held_as_tickets()
    ensures { (now : ℕ) (ticket : ClientTransaction) → is_held now (kept ticket) ≡ client.is_held now ticket }
{}

/// In every call of a client's end no two slots get one key, they stay within the capacity, and slots of other keys stay as they are, but those that are
/// not held, which leave when a new one comes.
#[tactic(auto, using(crate::proofs::ClientTables::client_stays_orderly, crate::proofs::ClientTables::client_others_stay))]
pub fn client_tables_stay_in_order()
    ensures orderly { ClientStaysOrderly }
    ensures others { ClientOthersStay }
{}

/// An accepted ask has the first invoke ID that is not held for its peer, from where the end's begin up to 255 and then from 0; where they begin at 0, the
/// least. An ask whose request can go is refused for lack of an invoke ID exactly where all 256 are held or the end waits after a restart, wherever they
/// begin, and for lack of a slot exactly where one is free, but all slots are held or no number is left for a further ticket.
pub fn asks_take_the_least_invoke_id()
    ensures least { TakesLeastFree }
    ensures from_zero { TakesLeastFromZero }
    ensures refused { (c : Settings) (now : ℕ) (peer : PeerView) (limits : Limits) (choice : ℕ) (octets : Octets) (e : ClientEnd)
        → RefusesAsks c now peer limits choice octets e }
{}

/// In every call of a server's end no two slots get one key, they stay within the capacity, and slots of other keys stay as they are, but those whose
/// entry is not live, which leave at a tick, and when a new one comes.
#[tactic(auto, using(crate::proofs::ServerTables::server_stays_orderly, crate::proofs::ServerTables::server_others_stay, crate::proofs::ServerTables::ticks_leave_live))]
pub fn server_tables_stay_in_order()
    ensures orderly { ServerStaysOrderly }
    ensures others { ServerOthersStay }
    ensures live { TicksLeaveLive }
{}

/// A request of which no live entry is there is turned away with an Abort of reason 'other', with nothing else done, exactly where no slot is free or the end waits after a restart; what
/// becomes of one that finds a live entry does not rest on that.
#[tactic(auto, using(crate::proofs::TurnedAway::turns_away))]
pub fn full_tables_turn_requests_away()
    ensures { TurnsAway }
{}

/// The store's limit for the service data of replies is the limit of a segmented transfer, so that every reply of a store can be sent.
pub fn replies_fit_transfers()
    ensures { DATA_LIMIT ≡ DATA }
{}
