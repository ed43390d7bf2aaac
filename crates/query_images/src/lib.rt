//! The images of queries in mapped facts.
#![tactic(auto)]

mod choosing;
mod collecting;
mod cutting;
mod imaging;

pub use choosing::is_wide;
pub use cutting::with_all_variables;
pub use imaging::{images, union_images};
