//! Tables: their declarations, and what the bytes of a file are under one.
//!
//! A [`TableDecl`] says how the bytes of a file are cut into typed columns; [`load`] gives the [`Table`] or the first
//! [`TableFault`] with its row and column. [`read_value`] reads one cell.
#![tactic(auto)]

mod decl;
mod fault;
mod header;
mod key;
pub mod laws;
mod loading;
mod records;
mod row;
mod table;
mod value;

pub use decl::{ColumnDecl, TableDecl};
pub use fault::TableFault;
pub use loading::load;
pub use table::{Table, have_keys, have_texts};
pub use value::read_value;
