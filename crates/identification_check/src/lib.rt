//! Two members of a class that the attributes which identify them do not tell apart.
#![tactic(auto)]

mod asking;
mod chaining;
mod twins;
mod violation;

pub use violation::{Violation, find_violation};
