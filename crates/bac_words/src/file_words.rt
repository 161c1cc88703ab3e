//! What `get` and `put` take.

/// Examples for `get`.
pub(crate) const GET_EXAMPLES: &str = "\
Example: bac get file:1 --out log.bin
Example: bac get --to 192.168.1.20 file:1 > log.bin";

/// What `get` takes.
pub(crate) const GET: &str = "\
OBJECT|bare|always||The file to read, such as file:1, by type and instance
out|text FILE|never||Writes the octets to FILE once it has read them all, and prints how many they are; without it, they go to standard output as they are
port
to
route
timeout";

/// Examples for `put`.
pub(crate) const PUT_EXAMPLES: &str = "\
Example: bac put file:1 log.bin
Example: bac put --to 192.168.1.20 file:1 log.bin";

/// What `put` takes.
pub(crate) const PUT: &str = "\
OBJECT|bare|always||The file to write, such as file:1, by type and instance
FILE|bare|always||The file with the octets to write. If the device's file is longer, it is emptied first; if the device refuses that, nothing is written
port
to
route
timeout";
