//! What no contract says: the texts of the faults, and that calls succeed.
ghost use Rattle.std.specs.Prelude.{None};

use super::*;
use bac_driver::{Clock, Link, LinkFault};
use bac_npdu::LinkAddress;

/// A link to which a datagram of 100 octets comes from one address again and again; all that it is to send is sent.
#[derive(Drop)]
struct Fake {
    from: LinkAddress,
}

impl Link for Fake {
    ghost failures = { λ _. 0 };

    ghost calls = { λ _. None };

    fn failures(&self) -> u64 {
        0
    }

    fn send(&mut self, _to: LinkAddress, _octets: &[u8]) -> Result<(), LinkFault> {
        Ok(())
    }

    fn recv(
        &mut self,
        buffer: &mut [u8],
        _wait: u64,
    ) -> Result<Option<(LinkAddress, usize)>, LinkFault> {
        let from = self.from;
        Ok(Some((from, buffer.len().min(100))))
    }
}

/// A clock that stands at 0.
#[derive(Drop)]
struct Still;

impl Clock for Still {
    ghost told = { λ _. record { last = 0; all = None } };

    fn now(&mut self) -> u64 {
        0
    }
}

/// A link of port 47808.
fn link_of(host: [u8; 4]) -> [u8; 6] {
    let [a, b, c, d] = host;
    [a, b, c, d, 186, 192]
}

#[test]
fn faults_are_named(rt: HostRuntime) {
    let rows = [
        ("", "block 1: no IPv4 address"),
        ("10.0.0.0/8,", "block 2: no IPv4 address"),
        ("10.0.0.0/8,office", "block 2: no IPv4 address"),
        ("10.0.0.0/33", "block 1: the number of bits is not 0 to 32"),
        ("10.0.0.0/08", "block 1: the number of bits is not 0 to 32"),
        (
            "127.0.0.1,10.0.0.1/8",
            "block 2: bits are set that do not count",
        ),
    ];
    for (text, wanted) in rows {
        let Err(fault) = read_sources(text) else {
            panic!(rt; "{text} is read");
        };
        let said = format!(in rt.alloc(); "{fault}").expect(&rt, "memory is refused");
        assert_eq!(rt; said.as_str(), wanted, "of {text}");
    }
}

#[test]
fn a_text_has_at_most_32_blocks(rt: HostRuntime) {
    let block = "10.0.0.1,";
    let Ok(text) = block.repeat(rt.alloc(), 32) else {
        panic!(rt; "no memory");
    };
    let Err(fault) = read_sources(&text) else {
        panic!(rt; "33 parts are read");
    };
    let said = format!(in rt.alloc(); "{fault}").expect(&rt, "memory is refused");
    assert_eq!(rt; said.as_str(), "more than 32 blocks");
}

#[test]
fn sources_are_heard(rt: HostRuntime) {
    let Ok(sources) = read_sources("10.0.0.0/8,192.168.1.7") else {
        panic!(rt; "no sources");
    };
    assert!(rt; sources.hears(link_of([10, 1, 2, 3])));
    assert!(rt; sources.hears(link_of([192, 168, 1, 7])));
    assert!(rt; !sources.hears(link_of([192, 168, 1, 8])));
    assert!(rt; Sources::local().hears(link_of([127, 0, 0, 1])));
    assert!(rt; !Sources::local().hears(link_of([8, 8, 8, 8])));
    assert!(rt; Sources::any().hears(link_of([8, 8, 8, 8])));
    assert!(rt; Sources::any().hears_all());
    assert!(rt; !Sources::local().hears_all());
}

#[test]
fn a_budget_is_spent(rt: HostRuntime) {
    let Ok(mut budget) = Budget::new(rt.alloc(), 7, 131_072, 0) else {
        panic!(rt; "no memory");
    };
    let host = [192, 0, 2, 1];
    assert!(rt; budget.spend(0, host, 262_144));
    assert!(rt; !budget.spend(0, host, 1));
    budget.credit(0, host, 100);
    assert!(rt; budget.spend(0, host, 300));
    assert!(rt; budget.spend(1_000, host, 131_072));
    assert!(rt; !budget.spend(1_000, host, 1));
}

#[test]
fn a_link_is_guarded(rt: HostRuntime) {
    let Ok(budget) = Budget::new(rt.alloc(), 7, 131_072, 0) else {
        panic!(rt; "no memory");
    };
    let near = link_of([10, 0, 0, 1]);
    let fake = Fake { from: near };
    let mut link = Guarded::new(fake, Still, Sources::local(), Some(budget), true);
    let mut buffer = [0; 2_048];
    assert!(rt; matches!(link.recv(&mut buffer, 0), Ok(Some((_, 100)))));
    // 256 KiB fit, and three octets for each of the 100
    for _ in 0..256 {
        assert!(rt; link.send(near, &[0; 1_024]).is_ok());
    }
    assert_eq!(rt; link.unsent(), 0);
    assert!(rt; link.send(near, &[0; 301]).is_ok());
    assert_eq!(rt; link.unsent(), 1);
    assert!(rt; link.send(near, &[0; 300]).is_ok());
    assert!(rt; link.send(link_of([127, 0, 0, 1]), &[0; 1_024]).is_ok());
    assert_eq!(rt; link.unsent(), 1);
    assert_eq!(rt; link.unheard(), 0);
}

#[test]
fn a_guard_makes_a_link(rt: HostRuntime) {
    let near = link_of([10, 0, 0, 1]);
    let far = link_of([8, 8, 8, 8]);
    let guard = Guard {
        sources: Sources::local(),
        rate: Some(131_072),
        spares_loopback: true,
    };
    let Ok(mut link) = guard.over(rt.alloc(), 7, 0, Fake { from: far }, Still) else {
        panic!(rt; "no memory");
    };
    let mut buffer = [0; 2_048];
    assert!(rt; matches!(link.recv(&mut buffer, 0), Ok(None)));
    assert!(rt; link.send(near, &[0; 262_145]).is_ok());
    assert_eq!(rt; link.unsent(), 1);
    let Ok(mut link) = Guard::open().over(rt.alloc(), 7, 0, Fake { from: far }, Still) else {
        panic!(rt; "no memory");
    };
    assert!(rt; matches!(link.recv(&mut buffer, 0), Ok(Some((_, 100)))));
    assert!(rt; link.send(near, &[0; 262_145]).is_ok());
    assert_eq!(rt; link.unsent(), 0);
}

#[test]
fn a_guarded_link_drops_far_sources(rt: HostRuntime) {
    let from = link_of([8, 8, 8, 8]);
    let mut link = Guarded::new(Fake { from }, Still, Sources::local(), None, false);
    let mut buffer = [0; 2_048];
    assert!(rt; matches!(link.recv(&mut buffer, 0), Ok(None)));
    assert_eq!(rt; link.unheard(), 1);
    assert_eq!(rt; link.failures(), 0);
}
