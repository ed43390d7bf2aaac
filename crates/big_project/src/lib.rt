//! A made project of any size: its files as functions of a number.
//!
//! [`file`] gives one file of the project of so many documents, [`shelf`] all of them in memory, and [`first_line`] the
//! part of a report that sums up its log. The project is for measuring and for trying the tool at a size.
#![tactic(auto)]

mod files;
mod project;
mod summary;
mod tables;

pub use files::{file, shelf};
pub use project::project_text;
pub use summary::first_line;
pub use tables::{doc_text, step_text};
