//! Clocks of nodes: their pace, and what is kept of each.
ghost use Rattle.std.specs.Prelude.{◌≡◌, ◌↔◌, ◌+◌, ◌-◌, ◌*◌, ◌/◌, ◌<◌, ◌≤◌, ◌^◌, ℕ, IfOk, IsTrue, Some, map};
ghost use Rattle.bac_protocol.specs.Pace.{IsTimely, most, least};
ghost use Rattle.bac_world.specs.World.{with_clock};
ghost use Rattle.bac_journal.specs.Clocks.{AreGoing, AreSane, IsSane, MayGo, clock_of, drift_of, exact_of, later_by, own_pace, own_view, paced, parts_of};
ghost use Rattle.bac_journal.specs.Clocks.{restart_at, restarted_own, starting, time_of, view_of_own};

use bac_protocol::times::{DEADLINE, KEEP, REST};
use bac_value::NoMemory;
use std::alloc::Global;

/// How far clocks of nodes may go apart, and how long a copy of a datagram lives.
#[derive(Clone, Copy, Debug, PartialEq, Eq)]
pub struct Pace {
    /// A clock is fast or slow by at most so many parts in a million.
    pub drift: u32,
    /// A copy that is older than so many milliseconds of real time is lost.
    pub life: u32,
}

impl Pace {
    /// Whether the times of the protocol suffice for clocks that go apart so far, and for copies that live so long: an entry of a server outlives the copies
    /// of its request, and `REST` outlasts all that was sent before it.
    pub fn is_timely(&self) -> bool
        ensures { IsTrue result ↔ IsTimely (own_pace self.now.drift self.now.life) }
    {
        if self.drift >= 1_000_000 {
            return false;
        }
        let life = 1_000_000 * u64::from(self.life);
        let kept = most(self.drift, KEEP);
        let keeps = most(self.drift, DEADLINE) + life <= least(self.drift, KEEP);
        keeps && life + kept + life <= least(self.drift, REST)
    }
}

/// The most real time that passes while a clock goes on by no more than that many milliseconds, in millionths of a millisecond.
pub(crate) fn most(drift: u32, ms: u64) -> u64
    requires slow { drift < 1000000 }
    requires short { ms ≤ 75000 }
    ensures is { (life : ℕ) → result ≡ most (own_pace drift life) ms }
    ensures few { result ≤ 1000000 * (1000000 * ms + 999999) }
{
    1_000_000 * (1_000_000 * ms + 999_999) / (1_000_000 - u64::from(drift))
}

/// While no more real time than this passes, no clock goes on by more than that many milliseconds, in millionths of a millisecond.
fn least(drift: u32, ms: u64) -> u64
    requires { ms ≤ 75000 }
    ensures { (life : ℕ) → result ≡ least (own_pace drift life) ms }
{
    (1_000_000 * (1_000_000 * ms + 1) - 1) / (1_000_000 + u64::from(drift))
}

/// What is kept of a node's clock: what it was, in millionths of a millisecond, when so many milliseconds of real time had passed, and how far it goes on in
/// each since then.
#[derive(Clone, Copy, PartialEq, Eq)]
pub(crate) struct NodeClock {
    pub exact: u128,
    pub since: u64,
    pub rate: u32,
}

impl NodeClock {
    /// What it is when so many milliseconds have passed.
    fn exact_at(&self, elapsed: u64) -> u128
        requires { (drift : ℕ) × (drift < 1000000) × IsSane elapsed drift self.now }
        ensures is { result ≡ exact_of elapsed (Some self.now) }
        ensures few { result ≤ 1000000 * 2 ^ 32 + 2000000 * elapsed }
    {
        let passed = elapsed - self.since;
        self.exact + u128::from(passed) * u128::from(self.rate)
    }

    /// The same clock, which goes on so far in each millisecond from now on.
    fn paced(&self, elapsed: u64, rate: u32) -> NodeClock
        requires { (drift : ℕ) × (drift < 1000000) × IsSane elapsed drift self.now }
        ensures is { result ≡ record { exact = exact_of elapsed (Some self.now); since = elapsed; rate = rate } }
        ensures few { result.exact ≤ 1000000 * 2 ^ 32 + 2000000 * elapsed }
    {
        NodeClock {
            exact: self.exact_at(elapsed),
            since: elapsed,
            rate,
        }
    }
}

/// The clocks of nodes that have their own: how many milliseconds of real time have passed, the pace of the clocks, and what is kept of each.
#[derive(Drop)]
pub(crate) struct OwnClocks {
    pub elapsed: u64,
    pub pace: Pace,
    pub nodes: Vec<NodeClock>,
}

impl OwnClocks {
    /// What a node is told.
    pub(crate) fn told(&self, node: usize) -> u64
        requires { (moment : ℕ) × (nodes : ℕ) × (moment < 2 ^ 64) × AreGoing moment nodes (own_view self.now) }
        ensures { (moment : ℕ) → result ≡ (clock_of moment (Some (own_view self.now)) node).shows }
    {
        match self.nodes.get(node) {
            Some(clock) => (clock.exact_at(self.elapsed) / 1_000_000) as u64,
            None => self.elapsed,
        }
    }

    /// From now on a node's clock goes on so far in each millisecond.
    #[tactic(auto, using(crate::proofs::Passing::paced_time, crate::proofs::Passing::set_going))]
    pub(crate) fn set_rate(&mut self, node: usize, rate: u32)
        requires going { (moment : ℕ) × (nodes : ℕ) × (node < nodes) × AreGoing moment nodes (own_view self.old) }
        requires slow { 1000000 ≤ rate + self.old.pace.drift }
        requires fast { rate ≤ 1000000 + self.old.pace.drift }
        ensures is { Some (own_view self.new) ≡ paced node rate (Some (own_view self.old)) }
        ensures going { (moment nodes : ℕ) → AreGoing moment nodes (own_view self.old) → AreGoing moment nodes (own_view self.new) }
        ensures time { (moment nodes : ℕ) → AreGoing moment nodes (own_view self.old)
            → time_of moment (Some (own_view self.new)) ≡ time_of moment (Some (own_view self.old)) }
    {
        self.nodes[node] = self.nodes[node].paced(self.elapsed, rate);
    }

    /// A node's clock begins anew at 0, as fast as it was.
    #[tactic(auto, using(crate::proofs::Passing::restarted_time, crate::proofs::Passing::set_going))]
    pub(crate) fn restart(&mut self, node: usize)
        requires { (moment : ℕ) × (nodes : ℕ) × (node < nodes) × AreGoing moment nodes (own_view self.old) }
        ensures is { Some (own_view self.new) ≡ restarted_own node (Some (own_view self.old)) }
        ensures going { (moment nodes : ℕ) → AreGoing moment nodes (own_view self.old) → AreGoing moment nodes (own_view self.new) }
        ensures time { (moment nodes : ℕ) → AreGoing moment nodes (own_view self.old)
            → time_of moment (Some (own_view self.new)) ≡ with_clock (time_of moment (Some (own_view self.old))) node 0 }
    {
        let rate = self.nodes[node].rate;
        self.nodes[node] = NodeClock {
            exact: 0,
            since: self.elapsed,
            rate,
        };
    }
}

/// What a node is told at that moment.
pub(crate) fn told(own: &Option<OwnClocks>, moment: u64, node: usize) -> u64
    requires { (nodes : ℕ) × MayGo moment nodes (view_of_own own.now) }
    ensures { result ≡ (clock_of moment (view_of_own own.now) node).shows }
{
    match own {
        Some(own) => own.told(node),
        None => moment,
    }
}

/// So many milliseconds pass, for which there is room.
pub(crate) fn pass(own: &mut Option<OwnClocks>, by: u64)
    requires { (moment : ℕ) × (nodes : ℕ) × (moment + parts_of (view_of_own own.old) * by < 2 ^ 64) × MayGo moment nodes (view_of_own own.old) }
    ensures { view_of_own own.new ≡ later_by by (view_of_own own.old) }
{
    if let Some(own) = own {
        own.elapsed += by;
    }
}

/// From now on a node's clock goes on so far in each millisecond.
pub(crate) fn set_rate(own: &mut Option<OwnClocks>, node: usize, rate: u32)
    requires going { (moment : ℕ) × (nodes : ℕ) × (node < nodes) × MayGo moment nodes (view_of_own own.old) }
    requires slow { 1000000 ≤ rate + drift_of (view_of_own own.old) }
    requires fast { rate ≤ 1000000 + drift_of (view_of_own own.old) }
    ensures is { view_of_own own.new ≡ paced node rate (view_of_own own.old) }
    ensures going { (moment nodes : ℕ) → MayGo moment nodes (view_of_own own.old) → MayGo moment nodes (view_of_own own.new) }
    ensures time { (moment nodes : ℕ) → MayGo moment nodes (view_of_own own.old)
        → time_of moment (view_of_own own.new) ≡ time_of moment (view_of_own own.old) }
{
    if let Some(own) = own {
        own.set_rate(node, rate);
    }
}

/// A node's clock begins anew at 0, where it has its own.
pub(crate) fn restart(own: &mut Option<OwnClocks>, node: usize)
    requires { (moment : ℕ) × (nodes : ℕ) × (node < nodes) × MayGo moment nodes (view_of_own own.old) }
    ensures is { view_of_own own.new ≡ restarted_own node (view_of_own own.old) }
    ensures going { (moment nodes : ℕ) → MayGo moment nodes (view_of_own own.old) → MayGo moment nodes (view_of_own own.new) }
    ensures time { (moment nodes : ℕ) → MayGo moment nodes (view_of_own own.old)
        → time_of moment (view_of_own own.new) ≡ with_clock (time_of moment (view_of_own own.old)) node (restart_at moment (view_of_own own.old)) }
{
    if let Some(own) = own {
        own.restart(node);
    }
}

/// The clocks of nodes that begin so, in milliseconds.
pub(crate) fn starting_clocks(alloc: Global, starts: &[u32]) -> Result<Vec<NodeClock>, NoMemory>
    ensures are { IfOk result (λ clocks. clocks.items ≡ map starting starts.now) }
    ensures sane { IfOk result (λ clocks. (drift : ℕ) → AreSane 0 drift clocks.items) }
{
    let mut clocks = Vec::with_capacity(alloc, starts.len())?;
    for start in starts {
        clocks.push(NodeClock {
            exact: 1_000_000 * u128::from(*start),
            since: 0,
            rate: 1_000_000,
        })?;
    }
    Ok(clocks)
}
