//! A node takes turns on a link that tells its calls, at the moments of a clock that tells its own.
use super::nodes::house_node;
use super::*;
use crate::noted_call::NotedCall;
use bac_driver::{BoundNode, Link, RunLimit, WaitLimit};
use bac_node::MEMORY;
use bac_transaction::Rules;
use std::process::Abort;

mod listed_clock;
mod telling_link;

use listed_clock::ListedClock;
use telling_link::TellingLink;

/// A read of the present-value of analog-input 5, and its answer.
const READ: &[u8] = b"\x81\x0A\x00\x11\x01\x04\x00\x05\x01\x0C\x0C\x00\x00\x00\x05\x19\x55";

const VALUE: &[u8] =
    b"\x81\x0A\x00\x17\x01\x00\x30\x01\x0C\x0C\x00\x00\x00\x05\x19\x55\x3E\x44\x42\x90\x99\x9A\x3F";

/// Two moments for each of two turns.
const MOMENTS: &[u64] = &[0, 5, 5, 5];

fn is_sent(call: &NotedCall) -> bool {
    match call {
        NotedCall::Sent(to, octets) => *to == link(0) && octets.as_slice() == VALUE,
        _ => false,
    }
}

fn is_received(call: &NotedCall) -> bool {
    match call {
        NotedCall::Received(wait, from, octets) => {
            *wait == 100 && *from == link(0) && octets.as_slice() == READ
        }
        _ => false,
    }
}

/// Whether the request came and was answered, and then nothing came.
fn are_told(noted: &[NotedCall]) -> bool {
    match noted {
        [first, second, NotedCall::Nothing(100)] => is_received(first) && is_sent(second),
        _ => false,
    }
}

/// A node on a link to which the request comes.
fn bound_node<R: Abort>(rt: &R, alloc: Global) -> Result<BoundNode<TellingLink<'_, R>>, Fail> {
    let node = house_node(alloc, 1)?;
    let coming = TellingLink::new(rt, alloc, link(0), READ.to_vec(alloc)?);
    Ok(BoundNode::new(alloc, node, coming, Rules::strict().within(MEMORY))?)
}

/// A node takes two turns; whether its link's calls are those of the request and its answer.
fn serves<R: Abort>(rt: &R, bound_node: &mut BoundNode<TellingLink<'_, R>>) -> bool {
    let mut clock = ListedClock::new(rt, MOMENTS);
    let limit = RunLimit {
        turns: 2,
        wait_limit: WaitLimit::BRIEF,
    };
    let served = bound_node.serve(&mut clock, &limit);
    matches!(served, Ok(1)) && clock.told() == 4 && are_told(bound_node.link().noted())
}

#[test]
fn calls_of_turns_are_told(rt: HostRuntime) -> Result<(), Fail> {
    let mut bound_node = bound_node(&rt, rt.alloc())?;
    holds(serves(&rt, &mut bound_node), "the calls of two turns")
}
