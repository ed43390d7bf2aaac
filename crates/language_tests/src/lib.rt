//! Tests of the line languages: tokens, models, tables, mappings, annotations and whole projects.
#![tactic(auto)]

#[cfg(test)]
mod annotations;
#[cfg(test)]
mod cases;
#[cfg(test)]
mod lines;
#[cfg(test)]
mod mappings;
#[cfg(test)]
mod models;
#[cfg(test)]
mod projects;
