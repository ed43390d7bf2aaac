//! Which queries of a list stand for others: containment of conjunctive queries by a homomorphism.
//!
//! [`maps_into`] tells whether one query stands for another, and [`drop_subsumed`] leaves out of a list what others
//! stand for.
#![tactic(auto)]

mod bindings;
mod kept;
pub mod laws;
mod mapping;
mod numbering;
mod search;
mod symbols;

pub use kept::drop_subsumed;
pub use mapping::maps_into;
