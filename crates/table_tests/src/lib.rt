//! Tests of values, tables, templates, row facts and files.
#![tactic(auto)]

#[cfg(test)]
mod cells;
#[cfg(test)]
mod facts;
#[cfg(test)]
mod files;
#[cfg(test)]
mod indexes;
#[cfg(test)]
mod small;
#[cfg(test)]
mod tables;
#[cfg(test)]
mod templates;
#[cfg(test)]
mod values;
