//! A node that serves in rounds: what a burst of writes changed is kept once, before any of its answers leaves; reads keep nothing; where keeping fails,
//! nothing leaves.
use bac_apdu::Limits;
use bac_driver::{BoundNode, NoObserver, Round, RoundFault, RunLimit, WaitLimit};
use bac_keep::KeepFault;
use bac_node::{Config, MEMORY, Node};
use bac_rows::holds;
use bac_store::house;
use bac_transaction::Rules;
use std::alloc::Global;
use std::cell::RefCell;
use std::test::Fail;

mod burst_link;
mod telling_keeper;

use burst_link::{BurstLink, StillClock};
use telling_keeper::TellingKeeper;

/// What a round does, in its order.
#[derive(Clone, Copy, PartialEq, Eq)]
enum Step {
    Noted,
    Kept,
    Sent,
}

/// The steps so far. A step that gets no memory is missing.
type Steps = RefCell<Vec<Step>>;

fn add(steps: &Steps, step: Step) {
    if let Ok(mut steps) = steps.try_borrow_mut() {
        drop(steps.push(step));
    }
}

/// A write of 21.5 to the present-value of analog-value 1; its eighth octet from the front is the invoke ID.
const WRITE: &[u8] =
    b"\x81\x0A\x00\x18\x01\x04\x00\x05\x00\x0F\x0C\x00\x80\x00\x01\x19\x55\x3E\x44\x41\xAC\x00\x00\x3F";

/// A read of the present-value of analog-input 5.
const READ: &[u8] = b"\x81\x0A\x00\x11\x01\x04\x00\x05\x00\x0C\x0C\x00\x00\x00\x05\x19\x55";

const TAKES: Limits = Limits {
    max_apdu: 5,
    takes_segments: true,
    max_segments: 7,
};

/// A burst of requests, and whether keeping fails.
#[derive(Clone, Copy)]
struct Row {
    request: &'static [u8],
    requests: u8,
    keeps: bool,
    /// How many rounds are taken at most.
    rounds: u64,
}

/// What became of it: how many requests were performed, None after a fault of the keeper, and the steps.
#[derive(Drop)]
struct Outcome {
    performed: Option<u64>,
    steps: Vec<Step>,
}

fn node(alloc: Global) -> Result<Node, Fail> {
    let config = Config {
        link: [10, 0, 0, 1, 0xBA, 0xC0],
        limits: TAKES,
        window: 32,
        client_slots: 64,
        reply_slots: 64,
    };
    Ok(Node::new(alloc, config, house(alloc)?)?)
}

/// Serves the burst in rounds. Returns how many requests were performed, None after a fault of the keeper.
fn served(alloc: Global, steps: &Steps, row: Row) -> Result<Option<u64>, Fail> {
    let link = BurstLink::new(steps, row.request, row.requests);
    let mut bound_node = BoundNode::new(alloc, node(alloc)?, link, Rules::strict().within(MEMORY))?;
    let mut round = Round::new(alloc, TellingKeeper::new(steps, row.keeps))?;
    let limit = RunLimit {
        turns: row.rounds,
        wait_limit: WaitLimit::BRIEF,
    };
    let served = bound_node.serve_kept(
        &mut StillClock,
        &limit,
        &mut round,
        &mut NoObserver,
        &mut (),
    );
    match served {
        Ok(performed) => Ok(Some(performed)),
        Err(RoundFault::Keep(KeepFault::Shut)) => Ok(None),
        Err(_) => Err(Fail::new("a fault of another kind")),
    }
}

/// What becomes of the burst.
fn serve(alloc: Global, row: Row) -> Result<Outcome, Fail> {
    let steps: Steps = RefCell::new(Vec::new(alloc));
    let performed = served(alloc, &steps, row)?;
    Ok(Outcome {
        performed,
        steps: steps.into_inner(),
    })
}

/// Whether the steps are `noted` of the first, a keep, `sent` of the last, and so on.
fn are_steps(steps: &[Step], noted: u8, kept: u8, sent: u8) -> bool {
    let (noted, kept, sent) = (usize::from(noted), usize::from(kept), usize::from(sent));
    steps.len() == noted + kept + sent
        && steps.iter().take(noted).all(|step| *step == Step::Noted)
        && steps
            .iter()
            .skip(noted)
            .take(kept)
            .all(|step| *step == Step::Kept)
        && steps
            .iter()
            .skip(noted + kept)
            .all(|step| *step == Step::Sent)
}

/// Whether a row's burst is performed and kept with these numbers.
fn is_served(
    alloc: Global,
    row: Row,
    performed: Option<u64>,
    steps: [u8; 3],
) -> Result<bool, Fail> {
    let outcome = serve(alloc, row)?;
    Ok(outcome.performed == performed && are_steps(&outcome.steps, steps[0], steps[1], steps[2]))
}

/// Thirty-two writes, as many as a round has.
const WRITES: Row = Row {
    request: WRITE,
    requests: 32,
    keeps: true,
    rounds: 1,
};

#[test]
fn writes_of_a_burst_are_kept_once(rt: HostRuntime) -> Result<(), Fail> {
    let few = Row {
        requests: 3,
        ..WRITES
    };
    holds(
        is_served(rt.alloc(), few, Some(3), [3, 1, 3])?,
        "three writes",
    )?;
    let is_full = is_served(rt.alloc(), WRITES, Some(32), [32, 1, 32])?;
    holds(is_full, "a full round")
}

#[test]
fn a_longer_burst_is_two_rounds(rt: HostRuntime) -> Result<(), Fail> {
    let one = Row {
        requests: 33,
        ..WRITES
    };
    holds(
        is_served(rt.alloc(), one, Some(32), [32, 1, 32])?,
        "one round of 33",
    )?;
    let outcome = serve(rt.alloc(), Row { rounds: 2, ..one })?;
    holds(outcome.performed == Some(33), "both rounds")?;
    let (first, second) = outcome.steps.split_at(65.min(outcome.steps.len()));
    holds(are_steps(first, 32, 1, 32), "the first round")?;
    holds(are_steps(second, 1, 1, 1), "the second round")
}

#[test]
fn reads_keep_nothing(rt: HostRuntime) -> Result<(), Fail> {
    let reads = Row {
        request: READ,
        requests: 5,
        ..WRITES
    };
    holds(is_served(rt.alloc(), reads, Some(5), [0, 0, 5])?, "reads")
}

#[test]
fn nothing_leaves_that_is_not_kept(rt: HostRuntime) -> Result<(), Fail> {
    let fails = Row {
        keeps: false,
        ..WRITES
    };
    holds(
        is_served(rt.alloc(), fails, None, [32, 0, 0])?,
        "a failing keep",
    )
}
