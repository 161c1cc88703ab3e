//! Nodes that did not answer since the system sends nothing to them.
use crate::rounds::Asked;
use bac_environment::ClientSockets;
use bac_npdu::LinkAddress;
use bac_text::Status;
use std::io::Write;

/// How many nodes of a list are looked at.
const MOST_LOOKS: u32 = 20;

/// Tells why the system sends nothing to a link, where it does not.
fn tell_link<M: ClientSockets, E: Write>(machine: &M, link: LinkAddress, err: &mut E) {
    let Some(error) = machine.refusal_towards(link) else {
        return;
    };
    let [a, b, c, d, high, low] = link;
    let port = u16::from_be_bytes([high, low]);
    // if that fails too, nothing is printed
    let _ = writeln!(err, "{a}.{b}.{c}.{d}:{port}: {error}");
}

/// If the status says that a node did not answer, prints on `err` why the system sends nothing to it, if the system tells that.
pub fn tell_unsent<M: ClientSockets, E: Write>(
    status: Status,
    machine: &M,
    link: LinkAddress,
    err: &mut E,
) {
    if status == Status::Faulty {
        tell_link(machine, link, err);
    }
}

/// The same of what a client asked: of the first nodes of a list.
pub(crate) fn tell_unsent_of<M: ClientSockets, E: Write>(
    status: Status,
    machine: &M,
    asked: &Asked,
    err: &mut E,
) {
    let lines = match asked {
        Asked::One(question) => return tell_unsent(status, machine, question.peer.link, err),
        Asked::Lines(lines) => lines,
    };
    let mut last = None;
    let mut looks = 0;
    for line in lines {
        let link = line.question.peer.link;
        if last != Some(link) && looks < MOST_LOOKS {
            looks += 1;
            tell_unsent(status, machine, link, err);
        }
        last = Some(link);
    }
}
