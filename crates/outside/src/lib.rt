//! What a program reads from and writes to: files by name and sinks of bytes, with counts of what
//! failed there.
//!
//! Code that is generic over [`Shelf`] and [`Sink`] cannot raise a count by itself, so an answer whose
//! contract says that a count rose comes only where the outside failed.
#![tactic(auto)]

mod bytes;
mod calls;
mod copying;
mod files;
mod folder;
mod memory_shelf;
mod memory_sink;
mod read;
mod room_sink;
pub mod shelf;
pub mod sink;
mod stream;
mod sure_shelf;
mod sure_sink;
mod words;
mod write;

pub use bytes::Bytes;
pub use copying::fill;
pub use folder::FolderShelf;
pub use memory_shelf::MemoryShelf;
pub use memory_sink::MemorySink;
pub use read::{FileFault, read_file};
pub use room_sink::RoomSink;
pub use shelf::{Failed, Shelf};
pub use sink::{Sink, Stop};
pub use stream::StreamSink;
pub use sure_shelf::SureShelf;
pub use sure_sink::SureSink;
pub use words::Words;
pub use write::write_all;
