//! One slot of a table.
/// A key, the moment at which its transaction began (in milliseconds), and its value.
#[derive(Drop)]
pub struct Slot<K, T> {
    pub key: K,
    pub begin: u64,
    pub value: T,
}
