//! Single moves, for whoever joins machines some of which let invoke IDs be used again with nodes, and keeps their tables.

ghost use Rattle.std.specs.Prelude.{◌≡◌, ℕ, List};
ghost use Rattle.bac_protocol.specs.Claims.{AreServedApart, IsBounded};
ghost use Rattle.bac_protocol.specs.Log.{Fact, IsOrderly, StoreModel};
ghost use Rattle.bac_protocol.specs.Moves.{IsReached, Move, moved};
ghost use Rattle.bac_protocol.specs.Pace.{IsTimely, Pace};
ghost use Rattle.bac_protocol.specs.Transaction.{Rules};
ghost use Rattle.bac_protocol.specs.World.{Event, Net, net_start, start};
ghost use Rattle.bac_reuse.specs.Moves.{AreServedApartSo, IsInOrderSo, IsOrderlySo, IsReachedSo, moved_so};
ghost use Rattle.bac_reuse.specs.Runs.{NoneReuses, Reusing, run_so};

/// After any list of single moves, whichever nodes let invoke IDs be used again, and whatever each server's service says at each delivery: the log is right,
/// where stores are not looked at, and an ask that is performed more than once is a read, at a server that lets them be; a ticket's request is the one asked
/// under its number; where copies or an entry are, there is a ticket; entries are their transaction's own; no entry is live for an invoke ID that is free,
/// where its client does not wait after a restart; and what the other servers perform for strangers is of entries apart.
pub fn moves_keep_order()
    ensures { (W : ℕ) (rules : Rules) (reusing : Reusing) → IsBounded W rules → (pace : Pace) → IsTimely pace → (clocks : ℕ → ℕ) → (net : Net)
        → IsReachedSo rules reusing (net_start pace clocks) net → IsInOrderSo reusing net }
{}

/// The net after a run is one to which single moves lead. So what is said of such nets holds after every run: as that an ask which is performed more than once
/// is a read, at a server that lets invoke IDs be used again.
pub fn runs_are_moves<S>()
    ensures { (model : StoreModel S) (opening : ℕ → S) (W : ℕ) (rules : Rules) → IsBounded W rules → (reusing : Reusing) → (pace : Pace) → IsTimely pace
        → (clocks : ℕ → ℕ) → (events : List Event)
        → IsReachedSo rules reusing (net_start pace clocks) (run_so S model rules reusing events (start S pace clocks opening)).net }
{}

/// Where no node lets invoke IDs be used again, each move is one of bac_protocol, and what is said of a net is what is said there.
pub fn moves_without_reuse()
    ensures moves { (rules : Rules) (reusing : Reusing) → NoneReuses reusing → (net : Net) (move : Move)
        → moved_so rules reusing net move ≡ moved rules net move }
    ensures reached { (rules : Rules) (reusing : Reusing) → NoneReuses reusing → (from net : Net) → IsReachedSo rules reusing from net
        → IsReached rules from net }
    ensures orderly { (reusing : Reusing) → NoneReuses reusing → (log : List Fact) → IsOrderlySo reusing log → IsOrderly log }
    ensures apart { (reusing : Reusing) → NoneReuses reusing → (net : Net) → AreServedApartSo reusing net → AreServedApart net }
{}
