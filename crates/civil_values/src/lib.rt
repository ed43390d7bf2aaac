//! The values of cells: what a text says as a time, a number, a truth value or a text, and the one text
//! that each value is written as.
//!
//! A cell text has one value of a kind or none, and nothing here takes memory. Two times are one instant, and
//! two numbers equal, exactly where their canonical texts are the same, and canonical times stand in the byte
//! order of their instants.
#![tactic(auto)]

mod clock;
mod day;
mod laws;
mod number;
mod offset;
mod text;
mod time;
mod time_text;
mod truth;

pub use laws::{
    canonical_texts_are_cell_texts, int_texts_are_apart, time_canonical_is_exact,
    time_texts_are_ordered,
};
pub use number::{read_int, write_int};
pub use offset::read_offset;
pub use text::is_text;
pub use time::{Millis, read_time};
pub use time_text::write_time;
pub use truth::read_bool;
