//! Conjunctive queries: their order, normal form, and the steps that replace variables.
//!
//! A [`Query`] has a head and [`Atom`]s over [`Arg`]uments. [`Query::check`] tells whether it may be asked,
//! [`Query::normal`] gives its normal form, [`Query::substitute`] and [`Query::unify_atoms`] the steps of rewriting.
#![tactic(auto)]

mod check;
pub mod laws;
mod normal;
mod order;
mod query;
mod replace;
mod tidy;
mod unify;

pub use check::QueryFault;
pub use order::{compare_terms, compare_tuples};
pub use query::{Arg, Atom, Query};
pub use unify::{Change, Meeting, Union, meet};
