//! The row of a node on a UDP socket of this machine.
use crate::side::node_on;
use crate::turns::receive;
use bac_driver::{BoundNode, Link, MonotonicClock, RunLimit, UdpLink, WaitLimit};
use bac_rows::row::Row;
use std::net::Net;
use std::time::Clock;

/// A node takes one turn on its own.
fn serve<R: Clock>(rt: &R, node: &mut BoundNode<UdpLink>, row: &mut Row) {
    let limit = RunLimit {
        turns: 1,
        wait_limit: WaitLimit::until_due(),
    };
    let served = match MonotonicClock::new(rt) {
        Ok(mut clock) => node.serve(&mut clock, &limit).ok(),
        Err(_) => None,
    };
    match served {
        Some(served) => row.line(format_args!("served {served}")),
        None => row.fail(),
    }
}

/// A client sends octets to a node on a link, which takes a turn, and receives the answer.
fn exchange<R: Net + Clock>(
    rt: &R,
    client: &mut UdpLink,
    link: UdpLink,
    line: &str,
    row: &mut Row,
) {
    let octets = row.octets(line, 0);
    let at = link.address();
    row.needs(client.send(at, &octets).is_ok());
    match node_on(row.alloc, at, link) {
        Some(mut node) => {
            serve(rt, &mut node, row);
            receive(client, 1_000, row);
            drop(node);
        }
        None => row.fail(),
    }
}

/// A client sends octets to a node on another socket, as in `exchange`.
fn meet<R: Net + Clock>(rt: &R, client: &mut UdpLink, line: &str, row: &mut Row) {
    match UdpLink::bind(rt, 0) {
        Ok(link) => exchange(rt, client, link, line, row),
        Err(_) => row.fail(),
    }
}

/// A socket sends the octets of a line, a node takes one turn on its own, and the first socket receives the answer.
pub(crate) fn play<R: Net + Clock>(rt: &R, line: &str, row: &mut Row) {
    match UdpLink::bind(rt, 0) {
        Ok(mut client) => {
            meet(rt, &mut client, line, row);
            drop(client);
        }
        Err(_) => row.fail(),
    }
}
