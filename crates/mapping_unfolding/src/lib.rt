//! Unfolding: queries over mapped facts as queries over tables.
//!
//! [`unfold`] is the one call: it gives one row query for each choice of a target for each atom of a query that can give
//! answers together, with the [`Origin`] of each atom. The answers of the row queries are those of the query over the
//! mapped facts.
#![tactic(auto)]

mod draft;
mod equate;
mod extend;
mod put;
mod shift;
mod source;
mod unfolded;
mod unfolding;

pub use draft::Origin;
pub use unfolded::Unfolded;
pub use unfolding::unfold;
