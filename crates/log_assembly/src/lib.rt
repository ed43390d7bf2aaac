//! The one log of annotations and certain answers, and its report.
//!
//! [`ask`] finds the answers of every query of the annotations, [`assemble`] makes the log of them, and [`report`] says
//! what was counted, left out and not written. [`laws::one_log`] says that annotations and answers have one log only.
#![tactic(auto)]

mod asked;
mod asking;
mod attributes;
mod entries;
pub mod laws;
mod lent;
mod lookup;
mod occurrences;
mod places;
mod reporting;
mod traces;
mod verdict;

pub use asked::{Asked, AskedEvent};
pub use asking::ask;
pub use reporting::report;
pub use traces::assemble;
pub use verdict::{Judgement, Verdict, Why};
