//! Explanations of answers.
//!
//! A [`Why`] has steps, each with its fact, as a derivation has them, and names one of them for each atom of a query.
//! [`explains`] tells which tuple of the query it explains, if any; [`why`] makes one for a certain answer. Nothing
//! else has to be trusted to believe an explanation: [`laws::explained_is_certain`] says that only certain answers
//! have one.
#![tactic(auto)]

mod answering;
mod asking;
mod bearing;
mod explaining;
mod explanation;
mod finding;
mod folding;
pub mod laws;
mod matching;
mod putting;
mod reading;
mod showing;
mod unwinding;
mod wide;

pub use answering::why;
pub use explaining::explains;
pub use explanation::Why;
