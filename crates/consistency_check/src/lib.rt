//! Which constraints the mapped facts contradict, each with a derivation.
//!
//! [`conflicts`] is the one call: for each contradicted constraint it gives one derivation that `conflict_checker`
//! accepts. It asks `negative_closure` what given facts would have to meet, `mapping_unfolding` over which tables, and
//! `join_engine` for one tuple, and stops at the first clash of a constraint.
#![tactic(auto)]

mod asking;
mod composing;
mod finding;
mod given;
mod meeting;
mod met;
mod prepared;
mod unsatisfiable;

pub use finding::conflicts;
