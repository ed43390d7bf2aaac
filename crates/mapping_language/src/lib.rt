//! The source lines and the mapping lines of a project: what they are, and the tables and mappings that they give.
//!
//! [`read_source_line`] reads the lines `table`, `column` and `key`, and [`read_mapping_line`] the lines `map`, into
//! [`Sources`], one at a time: a line that breaks a rule is its first fault. [`Sources::tables`] and
//! [`Sources::mappings`] lend what was read.
#![tactic(auto)]

mod holes;
mod mapping_build;
mod mapping_change;
mod mapping_double;
mod mapping_grammar;
mod mapping_rules;
mod mapping_templates;
mod mapping_types;
mod mapping_unknown;
mod reader;
mod scope;
mod source_change;
mod source_grammar;
mod source_rules;
mod sources;
mod tables;
mod written;

pub use reader::{read_mapping_line, read_source_line};
pub use sources::Sources;
