//! Answers and queries as they are printed, and the reports that count them.
//!
//! [`answers_text`] prints tuples of terms, a line for each; [`queries_text`] prints queries by the names of their
//! variables, classes and links, [`voids_text`] proofs that classes and links are void, and [`containment_text`] whether
//! one query is contained in another. Each has a line that counts what was printed, for the report.
#![tactic(auto)]

mod answers;
mod containment;
mod pieces;
mod query_lines;
mod void_lines;

pub use answers::{answers_report, answers_text, why_report};
pub use containment::{containment_report, containment_text};
pub use query_lines::{QueryNames, queries_report, queries_text};
pub use void_lines::{voids_report, voids_text};
