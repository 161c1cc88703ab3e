//! Datagrams between two sockets, and the clock.
use bac_core::{Clock, Link, LinkAddress, MonotonicClock, UdpLink};
use std::alloc::Global;
use std::test::Fail;

/// Whether these octets arrive from an address, in a buffer of four.
fn comes(link: &mut UdpLink, wait: u64, from: LinkAddress, octets: &[u8]) -> bool {
    let mut buffer = [0u8; 4];
    match link.recv(&mut buffer, wait) {
        Ok(Some(received)) => received.0 == from && buffer.get(..received.1) == Some(octets),
        _ => false,
    }
}

/// Whether nothing arrives.
fn comes_nothing(link: &mut UdpLink, wait: u64) -> bool {
    matches!(link.recv(&mut [0u8; 4], wait), Ok(None))
}

/// Whether a link is at a free port of the loopback, and says what it is bound to.
fn is_local(link: &UdpLink) -> bool {
    link.address().starts_with(&[127, 0, 0, 1]) && link.port() == 0 && link.host() == [127, 0, 0, 1]
}

/// Whether three octets arrive at another link, and nothing after them.
fn are_exchanged(one: &mut UdpLink, other: &mut UdpLink) -> bool {
    one.send(other.address(), &[0x81, 0x0A, 0x00]).is_ok()
        && comes(other, 100, one.address(), &[0x81, 0x0A, 0x00])
        && comes_nothing(other, 100)
}

/// Whether datagrams of four and of five octets are dropped, since each fills the buffer, and the next one arrives.
fn are_dropped(one: &mut UdpLink, other: &mut UdpLink) -> bool {
    one.send(other.address(), &[0x81, 0x0A, 0x00, 0x04]).is_ok()
        && comes_nothing(other, 100)
        && one
            .send(other.address(), &[0x81, 0x0A, 0x00, 0x04, 0x01])
            .is_ok()
        && comes_nothing(other, 100)
        && one.send(other.address(), &[0x81]).is_ok()
        && comes(other, 100, one.address(), &[0x81])
}

/// Whether a datagram that is too long is not sent.
fn is_too_long(alloc: Global, link: &mut UdpLink, to: LinkAddress) -> bool {
    let mut long = Vec::new(alloc);
    long.resize(70_000, 0u8).is_ok() && link.send(to, &long).is_err()
}

#[test]
fn datagrams_are_sent_and_received(rt: HostRuntime) -> Result<(), Fail> {
    let mut one = UdpLink::bind(&rt, 0)?;
    let mut other = UdpLink::bind(&rt, 0)?;
    assert!(&rt; is_local(&other) && are_exchanged(&mut one, &mut other));
    assert!(&rt; are_dropped(&mut one, &mut other));
    assert!(&rt; one.failures() == 0 && is_too_long(rt.alloc(), &mut one, other.address()));
    assert!(&rt; one.failures() == 1);
    Ok(())
}

/// Whether a datagram goes to a socket from one that is bound to each address of this machine, and is answered.
fn are_reached(near: &mut UdpLink, every: &mut UdpLink) -> bool {
    let (to, bound) = (near.address(), every.address());
    let from = [127, 0, 0, 1, bound[4], bound[5]];
    every.send(to, &[0x81]).is_ok()
        && comes(near, u64::MAX, from, &[0x81])
        && near.send(from, &[0x81, 0x0A]).is_ok()
        && comes(every, u64::MAX, to, &[0x81, 0x0A])
}

/// A socket at another address of the loopback, and one at each address, which both are reached; one at an address of another machine is refused.
#[test]
fn sockets_are_bound_at_addresses(rt: HostRuntime) -> Result<(), Fail> {
    let mut near = UdpLink::bind_at(&rt, [127, 0, 0, 2], 0)?;
    let mut every = UdpLink::bind_at(&rt, [0, 0, 0, 0], 0)?;
    assert!(&rt; near.address().starts_with(&[127, 0, 0, 2]) && are_reached(&mut near, &mut every));
    assert!(&rt; UdpLink::bind_at(&rt, [192, 0, 2, 1], 0).is_err());
    Ok(())
}

/// How many milliseconds of a clock a wait for nothing takes that is to take 100.
fn waited(link: &mut UdpLink, clock: &mut impl Clock) -> Option<u64> {
    let before = clock.now();
    if comes_nothing(link, 100) {
        Some(clock.now().saturating_sub(before))
    } else {
        None
    }
}

#[test]
fn a_clock_goes_on(rt: HostRuntime) -> Result<(), Fail> {
    let mut link = UdpLink::bind(&rt, 0)?;
    let mut clock = MonotonicClock::new(&rt)?;
    assert!(&rt; matches!(waited(&mut link, &mut clock), Some(90..=9_999)));
    assert!(&rt; comes_nothing(&mut link, 0));
    Ok(())
}
