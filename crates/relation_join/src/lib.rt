//! What two lists of rows of terms give together: their natural join, and of it what a head asks for.
//!
//! [`join`] takes rows under variables. Where the two share a variable, an index has the rows of the first by the text
//! of its term, so that what is tried grows with the rows that fit and not with all pairs. [`trim`] keeps a list in which
//! tuples come again as short as what it holds, and [`put_in_order`] has each tuple once.
#![tactic(auto)]

mod index;
mod joining;
mod ordering;
mod pairing;
mod value;

pub use joining::join;
pub use ordering::{FEW, put_in_order, trim};
pub use pairing::Sides;
