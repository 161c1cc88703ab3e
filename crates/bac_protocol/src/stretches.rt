//! Runs in stretches: from one stretch to the next nodes may have other settings, as where an operator restarts one with others.

ghost use Rattle.std.specs.Prelude.{ℕ, List};
ghost use Rattle.bac_protocol.specs.Claims.{AreOfNewest, AreServedApart, IsBounded, LaterPassesFindReply, NothingIsLeft, RepliesAreInWindow, RequestsAreInWindow};
ghost use Rattle.bac_protocol.specs.Log.{IsOnce, StoreModel};
ghost use Rattle.bac_protocol.specs.Moves.{IsInOrder, IsReachedIn};
ghost use Rattle.bac_protocol.specs.Pace.{IsTimely, Pace};
ghost use Rattle.bac_protocol.specs.StretchExamples.{OtherLimits, OtherWindow};
ghost use Rattle.bac_protocol.specs.Stretches.{AreBounded, Stretch, StretchesJoin, run_in};
ghost use Rattle.bac_protocol.specs.Transaction.{Rules};
ghost use Rattle.bac_protocol.specs.World.{Net, net_start, start};

/// The headline holds word for word where nodes get other settings at any moments, as at their restarts: windows, APDU sizes, and how many segments they take.
/// In each stretch windows are at most W, and few enough later copies may overtake one. What was sent or kept before stays what it was.
pub fn at_most_once<S>()
    ensures { (model : StoreModel S) (opening : ℕ → S) (W : ℕ) (stretches : List Stretch) → AreBounded W stretches → (pace : Pace) → IsTimely pace → (clocks : ℕ → ℕ)
        → (let w = run_in S model stretches (start S pace clocks opening) in IsOnce S model opening w.net.log w.stores) }
{}

/// So do the other claims, whatever the rules are from then on. They are those on strangers, on copies that may arrive, on when nothing is left of a
/// transaction, on windows, and on later passes.
pub fn claims_hold<S>()
    ensures apart { (model : StoreModel S) (opening : ℕ → S) (W : ℕ) (stretches : List Stretch) → AreBounded W stretches → (pace : Pace) → IsTimely pace
        → (clocks : ℕ → ℕ) → AreServedApart (run_in S model stretches (start S pace clocks opening)).net }
    ensures left { (model : StoreModel S) (opening : ℕ → S) (W : ℕ) (stretches : List Stretch) → AreBounded W stretches → (pace : Pace) → IsTimely pace
        → (clocks : ℕ → ℕ) → NothingIsLeft (run_in S model stretches (start S pace clocks opening)).net }
    ensures newest { (model : StoreModel S) (opening : ℕ → S) (W : ℕ) (stretches : List Stretch) → AreBounded W stretches → (pace : Pace) → IsTimely pace
        → (clocks : ℕ → ℕ) → (rules : Rules) → IsBounded W rules → AreOfNewest rules (run_in S model stretches (start S pace clocks opening)).net }
    ensures requests { (model : StoreModel S) (opening : ℕ → S) (W : ℕ) (stretches : List Stretch) → AreBounded W stretches → (pace : Pace) → IsTimely pace
        → (clocks : ℕ → ℕ) → (rules : Rules) → IsBounded W rules → RequestsAreInWindow W rules (run_in S model stretches (start S pace clocks opening)).net }
    ensures replies { (model : StoreModel S) (opening : ℕ → S) (W : ℕ) (stretches : List Stretch) → AreBounded W stretches → (pace : Pace) → IsTimely pace
        → (clocks : ℕ → ℕ) → (rules : Rules) → IsBounded W rules → RepliesAreInWindow W rules (run_in S model stretches (start S pace clocks opening)).net }
    ensures later_passes { (model : StoreModel S) (opening : ℕ → S) (W : ℕ) (stretches : List Stretch) → AreBounded W stretches → (pace : Pace) → IsTimely pace
        → (clocks : ℕ → ℕ) → (rules : Rules) → IsBounded W rules → LaterPassesFindReply rules (run_in S model stretches (start S pace clocks opening)).net }
{}

/// After any list of single moves, each by rules of its own, a net is in order.
pub fn moves_keep_order()
    ensures { (W : ℕ) (pace : Pace) → IsTimely pace → (clocks : ℕ → ℕ) → (net : Net) → IsReachedIn (IsBounded W) (net_start pace clocks) net → IsInOrder net }
{}

/// A run in one stretch is a run, and two stretches with one setting are one.
#[tactic(auto, using(crate::proofs::Stretched::stretches_join))]
pub fn stretches_join<S>()
    ensures { (model : StoreModel S) → StretchesJoin S model }
{}

/// A server restarts with another window, and a client so that it takes no segments. What is on its way, and a reassembly of the other end, stay what they were.
#[tactic(auto, using(crate::proofs::StretchesComputed::other_window, crate::proofs::StretchesComputed::other_limits))]
pub fn other_settings()
    ensures window { OtherWindow }
    ensures limits { OtherLimits }
{}
