//! What all commands take that ask a node: who it is, and how long it is waited for.

/// A line for each word, in the form of [`crate::words`].
const NODE: &str = "\
port|number P 65535|never||The UDP port of the node to ask, on 127.0.0.1; 1 to 65535, 47808 by default
to|text A.B.C.D[:P]|never|port|The IPv4 address of the node to ask, and its UDP port, 47808 by default; without it, a node at 127.0.0.1
route|text NET:MAC|never||The node to ask is behind the router at that address: its network number, 1 to 65534, and its address there, 1 to 8 octets in hexadecimal
timeout|text TIME|never||Stops waiting for an answer after TIME, such as 500ms, 2s or 0.5 (a plain number is in seconds), at most 60 s; by default after four requests, 12 seconds";

/// Whether a line is that of the word with that name.
fn is_of(line: &str, name: &str) -> bool {
    match line.split_once('|') {
        Some((first, _)) => first == name,
        None => false,
    }
}

/// The line of the word that a line of a command names: its own, or, where it is the name alone, that of the word which all commands take that ask a node.
pub(crate) fn whole_line(line: &'static str) -> &'static str {
    if line.contains('|') {
        return line;
    }
    NODE.lines().find(|own| is_of(*own, line)).unwrap_or(line)
}
