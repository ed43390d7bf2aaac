//! Project texts: their lines in order, up to the first that has a fault.
//!
//! [`read_project`] reads the lines in turn, by the readers of models, sources, mappings and annotations, and gives the
//! [`Project`] or the one [`ProjectFault`] of the text. A text whose second line with tokens is `ontology "FILE"`
//! ([`ontology_file`]) is read by [`read_project_over`] over what that file gives.
#![tactic(auto)]

mod fault;
pub mod laws;
mod line;
mod naming;
mod project;
mod reading;

pub use fault::ProjectFault;
pub use project::Project;
pub use reading::{ontology_file, read_project, read_project_over};
