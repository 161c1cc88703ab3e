//! Clocks that go apart: the bound on the life of a copy, and what goes wrong beyond it.

ghost use Rattle.std.specs.Prelude.{◌≡◌, ℕ, List};
ghost use Rattle.bac_protocol.specs.Drift.{AllKeepTime, Lives, TimesSuffice, Twice, TwiceInTick, Mixed};
ghost use Rattle.bac_protocol.specs.Pace.{one_clock};
ghost use Rattle.bac_protocol.specs.Log.{StoreModel};
ghost use Rattle.bac_protocol.specs.Transaction.{Key, Rules};
ghost use Rattle.bac_protocol.specs.World.{Event, run, start, client_now, server_now};

/// For which lives of a copy the times of the machines suffice.
#[tactic(auto, using(crate::proofs::AtDrift::lives))]
pub fn lives_of_copies()
    ensures { Lives }
{}

/// At any pace the times of the machines suffice where L + q + 0.126 P <= 5,000: copies live for L milliseconds, clocks are fast or slow by P millionths, and
/// what they show goes on by q milliseconds at a time, of which a second is a whole number.
pub fn times_suffice()
    ensures { TimesSuffice }
{}

/// With clocks that are fast or slow by a part in a thousand, and copies that live for 4,877 ms, a request is performed twice; with 4,876 it is not.
#[tactic(auto, using(crate::proofs::AtDrift::performed_twice))]
pub fn beyond_the_bound()
    ensures { Twice }
{}

/// With clocks that go on by ticks of 10 ms, and copies that live for a microsecond more than 4,990.001 ms, a request is performed twice; at 4,990.001 ms it is not.
#[tactic(auto, using(crate::proofs::AtDrift::twice_in_tick))]
pub fn beyond_the_bound_in_ticks()
    ensures { TwiceInTick }
{}

/// With copies that live for 4,932 ms an ask with a reply in segments ends with a part of the answer of an ask before it, of its invoke ID or of its client's old life.
#[tactic(auto, using(crate::proofs::AtDrift::answers_mixed))]
pub fn beyond_the_rest()
    ensures { Mixed }
{}

/// Without drift, with clocks that begin together, at a start and at each restart, and count milliseconds, all nodes have one clock in every run, which shows real time.
pub fn one_clock_without_drift<S>()
    ensures { (model : StoreModel S) (rules : Rules) (opening : ℕ → S) (events : List Event) → AllKeepTime S model rules events (start S one_clock (λ node. 0) opening)
        → (key : Key) → (let w = run S model rules events (start S one_clock (λ node. 0) opening) in
        (client_now w.net key ≡ w.net.now) × (server_now w.net key ≡ w.net.now)) }
{}
