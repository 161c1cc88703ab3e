//! Writers and stores. Run with each allocation refused in turn, too: `sh tests/memory/refused.sh`. A call that was refused leaves all as it was, and is done when
//! it comes again.
use super::*;
use bac_apdu::{read, write};
use bac_npdu::{Peer, write_datagram, write_frame_head};
use bac_service::{read_reply, read_request, write_reply, write_request};
use bac_store::{Allowed, Object, Property, Store, StoreFault};
use bac_value::{ObjectIdentifier, Value, read_data, read_tag, write_data, write_tag, write_value};

/// A read of the present-value of analog-input 5 with invoke ID 1.
const READ: &[u8] = b"\x81\x0A\x00\x11\x01\x04\x00\x05\x01\x0C\x0C\x00\x00\x00\x05\x19\x55";

/// What is written.
#[derive(Clone, Copy)]
enum Written {
    Tag,
    Value,
    Data,
    /// The service data of a request of that service choice.
    Request(u8),
    /// Those of a ComplexACK of that service choice.
    Reply(u8),
    Apdu,
    /// To link 2, of an APDU that begins after six octets.
    Datagram,
    /// What that one has in front of its APDU.
    FrameHead,
}

/// What is written, and its octets.
const WRITTEN: &[(Written, &[u8])] = &[
    (Written::Tag, b"\x65\xFE\x01\x00"),
    (Written::Value, b"\x22\x01\x00"),
    (Written::Data, b"\x0E\x44\x42\x90\x99\x9A\x0F\x21\x05"),
    (Written::Request(12), b"\x0C\x00\x00\x00\x05\x19\x55"),
    (
        Written::Request(7),
        b"\xC4\x02\x80\x00\x01\x0E\x31\xFF\x63\xAA\xBB\xCC\x0F",
    ),
    (
        Written::Reply(12),
        b"\x0C\x00\x00\x00\x05\x19\x55\x3E\x44\x42\x90\x99\x9A\x3F",
    ),
    (Written::Reply(7), b"\x09\x02"),
    (
        Written::Apdu,
        b"\x00\x05\x01\x0C\x0C\x00\x00\x00\x05\x19\x55",
    ),
    (
        Written::Apdu,
        b"\x0C\x05\x01\x00\x20\x0C\x0C\x00\x00\x00\x05",
    ),
    (Written::Apdu, b"\x40\x01\x05\x20"),
    (Written::Apdu, b"\x50\x01\x0C\x91\x01\x91\x1F"),
    (Written::Datagram, READ),
    (Written::FrameHead, b"\x81\x0A\x00\x11\x01\x04"),
];

/// Octets that spell nothing of the kind.
fn unread() -> Fail {
    Fail::from("not read")
}

/// Reads a tag, a value, data or service data from its octets, and writes it.
fn writes_value(
    what: Written,
    octets: &[u8],
    out: &mut Vec<u8>,
) -> Result<Result<(), NoMemory>, Fail> {
    Ok(match what {
        Written::Tag => write_tag(&read_tag(octets)?.0, out),
        Written::Value => write_value(&Value::Unsigned(256), out),
        Written::Data => write_data(read_data(octets)?.0, out),
        Written::Request(choice) => {
            let request = read_request(choice, octets).map_err(|_| unread())?;
            write_request(request, out)
        }
        Written::Reply(choice) => write_reply(read_reply(choice, octets)?, out),
        _ => return Err(unread()),
    })
}

/// A peer on the own network.
fn neighbour() -> Peer {
    Peer {
        link: link(2),
        route: None,
    }
}

/// Reads an APDU or the one in a datagram from its octets, and writes that.
fn writes(what: Written, octets: &[u8], out: &mut Vec<u8>) -> Result<Result<(), NoMemory>, Fail> {
    match what {
        Written::Apdu => Ok(write(&read(octets)?, out)),
        Written::Datagram => Ok(write_datagram(&neighbour(), true, &READ[6..17], out)),
        Written::FrameHead => Ok(write_frame_head(&neighbour(), true, 11, out)),
        _ => writes_value(what, octets, out),
    }
}

/// One octet, in a vector that has to grow for a third: what is written octet by octet is refused behind its first one.
fn one_octet(alloc: Global) -> Result<Vec<u8>, Fail> {
    let mut out = match Vec::with_capacity(alloc, 2) {
        Ok(out) => out,
        Err(_) => Vec::with_capacity(alloc, 2)?,
    };
    out.push(0xAA)?;
    Ok(out)
}

/// Whether the octet and then those were written; a refused writer left the octet alone, and wrote when it came again.
fn is_written(alloc: Global, what: Written, octets: &[u8]) -> Result<bool, Fail> {
    let mut out = one_octet(alloc)?;
    if writes(what, octets, &mut out)?.is_err() {
        if !matches!(out.as_slice(), [0xAA]) {
            return Ok(false);
        }
        writes(what, octets, &mut out)??;
    }
    Ok(out.first() == Some(&0xAA) && out.get(1..) == Some(octets))
}

#[test]
fn writers_with_refused_memory(rt: HostRuntime) -> Result<(), Fail> {
    for (what, octets) in WRITTEN {
        assert!(rt; is_written(rt.alloc(), *what, octets)?);
    }
    Ok(())
}

/// A description of three octets, and one object that has it.
fn objects(alloc: Global) -> Result<Vec<Object>, NoMemory> {
    let Ok((values, _)) = read_data(b"\x73\x00\x61\x62") else {
        return Err(NoMemory);
    };
    let mut properties = Vec::new(alloc);
    properties.push(Property {
        number: 28,
        values: values.to_owned(alloc)?,
        writable: true,
        allowed: Allowed::Any,
    })?;
    let mut objects = Vec::new(alloc);
    objects.push(Object {
        id: ObjectIdentifier {
            kind: 0,
            instance: 7,
        },
        name: String::from_str(alloc, "level")?,
        properties,
        file: None,
    })?;
    Ok(objects)
}

/// Objects, where one allocation alone may be refused.
fn objects_at_last(alloc: Global) -> Result<Vec<Object>, NoMemory> {
    match objects(alloc) {
        Ok(objects) => Ok(objects),
        Err(NoMemory) => objects(alloc),
    }
}

/// The store of these objects; where one was refused that was because memory was refused, and for nothing else, and it is made when the call comes again.
fn store_at_last(alloc: Global) -> Result<Store, Fail> {
    match Store::new(alloc, objects_at_last(alloc)?) {
        Err(StoreFault::NoMemory) => Ok(Store::new(alloc, objects_at_last(alloc)?)?),
        made => Ok(made?),
    }
}

/// Whether two such stores are the same.
fn are_made(alloc: Global) -> Result<bool, Fail> {
    Ok(store_at_last(alloc)?.same(&store_at_last(alloc)?))
}

#[test]
fn stores_with_refused_memory(rt: HostRuntime) -> Result<(), Fail> {
    assert!(rt; are_made(rt.alloc())?);
    Ok(())
}
