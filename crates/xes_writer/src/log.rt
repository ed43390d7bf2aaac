//! Event logs over any type of values.
use vocabulary::{List, Name, Side};

/// An attribute of a trace or an event: its key, its sort, and its value.
#[derive(Debug, Drop)]
pub struct Entry<V> {
    pub key: Name,
    pub side: Side,
    pub value: V,
}

#[derive(Debug, Drop)]
pub struct EventRow<V> {
    pub entries: List<Entry<V>>,
}

#[derive(Debug, Drop)]
pub struct TraceRow<V> {
    pub entries: List<Entry<V>>,
    pub events: List<EventRow<V>>,
}

#[derive(Debug, Drop)]
pub struct Log<V> {
    pub traces: List<TraceRow<V>>,
}
