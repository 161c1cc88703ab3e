//! What must come of an ask among the machines of both ends, whatever is lost, repeated or reordered: a law each. The age of an ask is by its client's clock,
//! as are its client's timers; those of its server are by the server's clock.
ghost use Rattle.std.specs.Prelude.{ℕ, List};
ghost use Rattle.bac_protocol.specs.Log.{StoreModel};
ghost use Rattle.bac_protocol.specs.Transaction.{Rules};
ghost use Rattle.bac_protocol.specs.Pace.{Pace, IsTimely};
ghost use Rattle.bac_protocol.specs.World.{Event, run, start};
ghost use Rattle.bac_protocol.specs.Claims.{IsBounded};
ghost use Rattle.bac_liveness.specs.AfterPast.{AfterAnyPast, AnsweringRunExists, EndsAreInStep, InStepIsAnswered};
ghost use Rattle.bac_liveness.specs.Ends.{EndingsAreLogged, EndsInTime};
ghost use Rattle.bac_liveness.specs.Repeats.{RepeatsSuffice};
ghost use Rattle.bac_liveness.specs.RoundTrip.{RoundTripSuffices, RoundTripSufficesInSegments};
ghost use Rattle.bac_liveness.specs.Stopped.{StoppedGoesOn};
ghost use Rattle.bac_liveness.specs.Turns.{OneTurnSuffices};

/// Each ask ends: after any run, more than 60,000 ms after its first sending by its client's clock, a tick of its client leaves it ended, and so does each
/// APDU of a server that comes for it, whatever happens in between, but for a restart of that client, which loses the ask. The log then has one ending of
/// that ask.
pub fn asks_end<S>()
    ensures { (model : StoreModel S) (opening : ℕ → S) (W : ℕ) (rules : Rules) → IsBounded W rules → (pace : Pace) → IsTimely pace → (clocks : ℕ → ℕ)
        → (events : List Event)
        → EndsInTime S model rules (run S model rules events (start S pace clocks opening)) }
{}

/// After any run the log has exactly one ending of each ask whose ticket is idle, and none of one whose ticket is open, where its client has not
/// restarted since.
pub fn endings_are_logged<S>()
    ensures { (model : StoreModel S) (opening : ℕ → S) (W : ℕ) (rules : Rules) → IsBounded W rules → (pace : Pace) → IsTimely pace → (clocks : ℕ → ℕ)
        → (events : List Event)
        → EndingsAreLogged (run S model rules events (start S pace clocks opening)).net }
{}

/// One round trip suffices: after any run, where a copy of a request of one APDU is delivered to a server that performs it then, or has performed it and
/// keeps its reply of one APDU, an answer is sent; and whatever happens from then on, as long as the ticket is open and in time, each copy of that answer
/// that is delivered ends it with the reply with which it was performed, also where its server has restarted.
pub fn round_trip_suffices<S>()
    ensures { (model : StoreModel S) (opening : ℕ → S) (W : ℕ) (rules : Rules) → IsBounded W rules → (pace : Pace) → IsTimely pace → (clocks : ℕ → ℕ)
        → (events : List Event)
        → RoundTripSuffices S model rules (run S model rules events (start S pace clocks opening)) }
{}

/// The same for a request in segments, once it was performed: each of its segments that is delivered brings its reply of one APDU again, and one copy of
/// that answer ends the ticket. Windows are from 1 on.
pub fn round_trip_suffices_in_segments<S>()
    ensures { (model : StoreModel S) (opening : ℕ → S) (W : ℕ) (rules : Rules) → IsBounded W rules → (pace : Pace) → IsTimely pace → (clocks : ℕ → ℕ)
        → (events : List Event)
        → RoundTripSufficesInSegments S model rules (run S model rules events (start S pace clocks opening)) }
{}

/// Repeats suffice: an ask of one APDU that is made after any run, each delivered copy of which finds its server, is waited for or answered until
/// 12,000 ms have passed since its first sending, whatever is lost, repeated, reordered or asked of others, where its client does not restart. Until then
/// each tick of its client that is due finds a repeat left and sends the request again; and where any copy of the request and then the answer that it
/// brought are delivered, the ask has ended with the reply with which it was performed.
pub fn repeats_suffice<S>()
    ensures { (model : StoreModel S) (opening : ℕ → S) (W : ℕ) (rules : Rules) → IsBounded W rules → (pace : Pace) → IsTimely pace → (clocks : ℕ → ℕ)
        → (events : List Event)
        → RepeatsSuffice S model rules (run S model rules events (start S pace clocks opening)) }
{}

/// One turn suffices: after any run, where an ask of one APDU waits, in time, with a repeat left and its timer due, and its server can perform it, so does
/// not wait after a restart, or has performed it, a tick and the delivery of the copy that it sends, and then of the answer that this brings, end it with
/// the reply with which it was performed.
pub fn one_turn_suffices<S>()
    ensures { (model : StoreModel S) (opening : ℕ → S) (W : ℕ) (rules : Rules) → IsBounded W rules → (pace : Pace) → IsTimely pace → (clocks : ℕ → ℕ)
        → (events : List Event)
        → OneTurnSuffices S model rules (run S model rules events (start S pace clocks opening)) }
{}

/// A stopped reply goes on: after any run, where an entry is live and its reply in segments has used up its retries, each copy of its request that is
/// delivered, or each segment of one in segments, sends its window again from the first unacknowledged segment on, with full retries.
pub fn stopped_reply_goes_on<S>()
    ensures { (model : StoreModel S) (opening : ℕ → S) (W : ℕ) (rules : Rules) → IsBounded W rules → (pace : Pace) → IsTimely pace → (clocks : ℕ → ℕ)
        → (events : List Event)
        → StoppedGoesOn S model rules (run S model rules events (start S pace clocks opening)) }
{}

/// In step, one turn answers: after any run, whatever was lost, where the two ends of a transaction are in step, one timer that is due, and then each copy
/// that is sent from then on, delivered once, in order of sending, end the ask with the reply with which it was performed, after at most 3n + 3m deliveries,
/// for a request in n segments and a reply in m. Its server does not wait after a restart.
pub fn in_step_is_answered<S>()
    ensures { (model : StoreModel S) (opening : ℕ → S) (W : ℕ) (rules : Rules) → IsBounded W rules → (pace : Pace) → IsTimely pace → (clocks : ℕ → ℕ)
        → (events : List Event)
        → InStepIsAnswered S model rules (run S model rules events (start S pace clocks opening)) }
{}

/// After every run the two ends of each transaction are in step whose ask is in time and whose server has not restarted since, where windows are from 1 on.
pub fn ends_are_in_step<S>()
    ensures { (model : StoreModel S) (opening : ℕ → S) (W : ℕ) (rules : Rules) → IsBounded W rules → (pace : Pace) → IsTimely pace → (clocks : ℕ → ℕ)
        → (events : List Event)
        → EndsAreInStep S rules (run S model rules events (start S pace clocks opening)) }
{}

/// After any past in which its server has not restarted since the ask one turn answers: after any run, whatever was lost, one timer of an ask in time that
/// is due, and then each copy that is sent from then on, delivered once, in order of sending, at one moment, end the ask with the reply with which it was
/// performed, after at most 3n + 3m deliveries.
pub fn after_any_past<S>()
    ensures { (model : StoreModel S) (opening : ℕ → S) (W : ℕ) (rules : Rules) → IsBounded W rules → (pace : Pace) → IsTimely pace → (clocks : ℕ → ℕ)
        → (events : List Event)
        → AfterAnyPast S model rules (run S model rules events (start S pace clocks opening)) }
{}

/// Such a run exists: after that tick there is a count of at most 3n + 3m deliveries, each of a copy that was sent, the last of which ends the ask.
pub fn answering_run_exists<S>()
    ensures { (model : StoreModel S) (opening : ℕ → S) (W : ℕ) (rules : Rules) → IsBounded W rules → (pace : Pace) → IsTimely pace → (clocks : ℕ → ℕ)
        → (events : List Event)
        → AnsweringRunExists S model rules (run S model rules events (start S pace clocks opening)) }
{}
