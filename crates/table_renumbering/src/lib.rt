//! Row queries whose tables stand at other places.
//!
//! [`renumber`] gives a row query over the same tables in another order, or with one place for several places of one
//! table, and the tuples of the one are those of the other, picked by place.
#![tactic(auto)]

mod moving;
mod renumbering;

pub use renumbering::renumber;
