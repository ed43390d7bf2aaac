//! Event logs, and their XES text (IEEE 1849-2016).
//!
//! A [`Log`] has traces, events and attributes as the standard names them; [`log_text`] writes the document.
#![tactic(auto)]

mod gather;
mod log;
mod text;
mod writing;

pub use log::{Entry, EventRow, Log, TraceRow};
pub use text::log_text;
pub use writing::write_log;
