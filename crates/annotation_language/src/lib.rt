//! Annotations of a class model: what its cases and events are, and their attributes.
//!
//! [`read_annotation_line`] reads the lines `case`, `casename`, `event`, `cases`, `set` and `query` into a [`Noted`],
//! one at a time: a line that breaks a rule is its first fault. [`Noted::notes`] lends what was read as [`Annotations`],
//! and [`Noted::variables`] the names of a query's variables. [`complete`] tells what a log would lack first;
//! [`Annotations::query_named`] finds the query that can be asked by a name.
#![tactic(auto)]

mod building;
mod completeness;
mod finding;
mod grammar;
mod keys;
mod noted;
mod notes;
mod places;
mod reader;
mod resolved;
mod rules;
mod sides;
mod variables;
mod written;

pub use completeness::complete;
pub use noted::Noted;
pub use notes::{Annotations, EventNote, KeyNote, KeySource, NamedQuery, Rule};
pub use reader::read_annotation_line;
