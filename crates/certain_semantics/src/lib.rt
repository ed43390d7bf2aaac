//! Certain answers: what a query asks of the chase.
//!
//! Nothing here runs. `specs/` says when a tuple of known terms is a certain answer of a query over a list of facts;
//! [`laws`] ties that to derivations. The rewriting, the folds and the answers are all stated over it.
#![tactic(auto)]

pub mod laws;
