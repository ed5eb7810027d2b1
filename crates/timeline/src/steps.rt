/// What a key had before a write: a value, or nothing.
#[derive(Clone, Copy)]
pub struct Swap<K, V> {
    pub key: K,
    pub value: Option<V>,
}

/// A step of a list of records: the beginning of a record, or one of its writes.
#[derive(Clone, Copy)]
pub enum Step<K, V> {
    Mark,
    Write(Swap<K, V>),
}
