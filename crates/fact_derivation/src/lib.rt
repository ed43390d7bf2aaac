//! Derivations of known facts: a mapped fact, and then the rules along a chain of axioms.
//!
//! A known fact stands in some round of the chase exactly where a mapped fact leads to it: for a class, one
//! that matches a basic below the class at the same term, and for a link, one of a link under it with the
//! same ends, exchanged where it is under it so. `known` tries these one after the other, takes the mapped
//! fact that `finding` finds for the query of `asking`, and makes rules of the chain's axioms. No chase is
//! computed, and no fact is kept. [`origin_step`] makes the mapped step of a tuple, also for crates above.
#![tactic(auto)]

mod asking;
mod finding;
mod known;

pub use finding::{have_few_rows, origin_step};
pub use known::derive;
